//! Lists the faults of WIT texts, the nodes of their trees, and what is told of the texts, for tests: `tree_listing
//! faults PATH..`, `tree_listing nodes PATH..` and `tree_listing findings PATH..`. The gate compares them with what the
//! program answers. `tree_listing layouts PATH..` prints the texts in their layout.
#![tactic(auto)]

mod findings;
mod formatting;

use findings::list_finding;
use formatting::list_layout;
use std::alloc::{AllocError, Global};
use std::{env, fs, io};
use wit_reading::tree_of;
use wit_rules::{Finding, findings_of};
use wit_tree::{Fix, Node, Told, Tree, faults_of};

/// The bytes that a text may have.
const LIMIT: usize = 1_048_576;

/// Prints what mends a fault.
fn list_fix(rt: &HostRuntime, fault: &Told) -> io::Result<()> {
    let insert = fault.insert;
    match fault.fix {
        Fix::None => println!(rt; ""),
        Fix::InsertBefore(mark) => println!(rt; "; insert `{mark}` at {insert}"),
        Fix::Remove => println!(rt; "; remove it"),
        Fix::Replace(mark) => println!(rt; "; write `{mark}`"),
        Fix::Escape => println!(rt; "; insert `%`"),
    }
}

/// Prints a fault.
fn list_fault(rt: &HostRuntime, fault: &Told) -> io::Result<()> {
    let (start, end, problem) = (fault.start, fault.end, fault.problem);
    print!(rt; "fault {start}..{end} {problem}")?;
    list_fix(rt, fault)
}

/// Prints a node, by its words.
fn list_node(rt: &HostRuntime, node: &Node) -> io::Result<()> {
    let (kind, from, to, inside) = (node.kind, node.from, node.to, node.inside);
    println!(rt; "node {kind:?} {from}..{to} {inside}")
}

/// The faults and the nodes of a text.
#[derive(Drop)]
struct Listing {
    faults: Vec<Told>,
    tree: Tree,
}

/// The faults and the nodes of a text, if it is not too long.
#[tactic(auto, unfolding(wit_tokens::specs::Lexing::limit))]
fn listing_of(alloc: Global, text: &str) -> Result<Option<Listing>, AllocError> {
    if text.len() > LIMIT {
        return Ok(None);
    }
    let tree = tree_of(alloc, text)?;
    let faults = faults_of(alloc, text, &tree)?;
    Ok(Some(Listing { faults, tree }))
}

/// Prints the faults of a text, and its nodes if they are asked for.
fn list(rt: &HostRuntime, path: &str, has_nodes: bool) -> io::Result<()> {
    println!(rt; "== {path}")?;
    let text = fs::read_to_string(rt, path)?;
    let Some(listing) = listing_of(rt.alloc(), text.as_str())? else {
        return println!(rt; "too long");
    };
    for fault in listing.faults.as_slice() {
        list_fault(rt, fault)?;
    }
    if has_nodes {
        for node in listing.tree.nodes.as_slice() {
            list_node(rt, node)?;
        }
    }
    Ok(())
}

/// What is told of a text, if it is not too long.
#[tactic(auto, unfolding(wit_tokens::specs::Lexing::limit))]
fn told_of(alloc: Global, text: &str) -> Result<Option<Vec<Finding>>, AllocError> {
    if text.len() > LIMIT {
        return Ok(None);
    }
    Ok(Some(findings_of(alloc, text)?))
}

/// Prints what is told of a text.
fn tell(rt: &HostRuntime, path: &str) -> io::Result<()> {
    println!(rt; "== {path}")?;
    let text = fs::read_to_string(rt, path)?;
    let Some(findings) = told_of(rt.alloc(), text.as_str())? else {
        return println!(rt; "too long");
    };
    for finding in findings.as_slice() {
        list_finding(rt, finding)?;
    }
    Ok(())
}

fn main(rt: HostRuntime) -> io::Result<()> {
    let words: Vec<String> = env::args(&rt)?.collect(rt.alloc())?;
    let [_, asked, paths @ ..] = words.as_slice() else {
        return println!(rt; "usage: tree_listing faults|nodes|findings|layouts PATH..");
    };
    for path in paths {
        match asked.as_str() {
            "findings" => tell(&rt, path.as_str())?,
            "layouts" => list_layout(&rt, path.as_str())?,
            asked => list(&rt, path.as_str(), asked == "nodes")?,
        }
    }
    Ok(())
}
