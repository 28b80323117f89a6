//! What the table of a tree keeps.
//!
//! The rows that a tree resolves to are in package form, closed where its imports are, and each scope's names differ;
//! what passes a limit is told by the names alone, and so all tables of one tree are the same. Nothing here runs:
//! `tree_rows` names these laws in its contract. It stands on `tree_meaning`.
