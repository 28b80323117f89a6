//! Lists with commas in braces.
ghost use Rattle.std.specs.Prelude.{◌≡◌, ◌<◌, map, IfOk};
ghost use Rattle.atoms.specs.Production.{listed};
ghost use Rattle.wit_tokens.specs.Lexing.{limit};
ghost use Rattle.wit_grammar.specs.Faults.{AnswersRead, is, wanted};
ghost use Rattle.wit_grammar.specs.Left.{tokens_from, count_from, text_end};
ghost use Rattle.wit_grammar.specs.Grammar.{comma, close_brace};

use crate::parser::separator;
use crate::tokens::Tokens;
use std::alloc::Global;
use wit_tokens::{Expected, Punctuation, TextError};

/// How the entries of such a list are read.
pub trait EntryReader {
    ghost use Rattle.std.specs.Prelude.{◌≡◌, ◌<◌, ℕ, IfOk};
    ghost use Rattle.wit_grammar.specs.Faults.{AnswersRead};
    ghost use Rattle.wit_grammar.specs.Left.{tokens_from, count_from, text_end};
    ghost use Rattle.wit_grammar.specs.Lookahead.{Phrase};
    ghost use Rattle.wit_tokens.specs.declared.error.Expected.{Expected};

    type Entry: Drop;

    // What an entry stands for.
    ghost Meaning: { Type 0 };

    ghost meaning: { Self.Entry → Meaning };

    // The production of an entry, in a text of so many bytes.
    ghost production: { Self → ℕ → Phrase Meaning };

    // What is wanted behind an entry.
    ghost wanted_behind: { Meaning → Expected };

    /// Takes an entry.
    fn read(
        &self,
        alloc: Global,
        tokens: &Tokens<'_>,
        at: usize,
    ) -> Result<(Self::Entry, usize), TextError>
        ensures gives { AnswersRead (λ x. (meaning x.0, tokens_from tokens.now x.1)) result
            ((production self.now (text_end tokens.now)).read (tokens_from tokens.now at)) }
        ensures shorter { IfOk result (λ x. count_from tokens.now x.1 < count_from tokens.now at) };

    /// What is wanted behind it, where no comma and no `}` stands.
    fn wanted_behind(&self, entry: &Self::Entry) -> Expected
        ensures { result ≡ wanted_behind (meaning entry.now) };
}

/// Entries, up to the `}` and with it.
pub fn comma_list<R: EntryReader>(
    reader: &R,
    alloc: Global,
    tokens: &Tokens<'_>,
    at: usize,
) -> Result<(Vec<R::Entry>, usize), TextError>
    ensures gives { AnswersRead (λ x. (map R.meaning x.0.items, tokens_from tokens.now x.1)) result
        ((listed (is comma) (is close_brace) (λ x. wanted (text_end tokens.now) (R.wanted_behind x))
        (R.production reader.now (text_end tokens.now)) limit).read (tokens_from tokens.now at)) }
    ensures shorter { IfOk result (λ x. count_from tokens.now x.1 < count_from tokens.now at) }
{
    let mut list = Vec::new(alloc);
    let mut left = at;
    'list: loop {
        let (entry, after) = reader.read(alloc, tokens, left)?;
        let wanted = reader.wanted_behind(&entry);
        list.push(entry)?;
        let (more, after) = separator(tokens, after, Punctuation::CloseBrace, wanted)?;
        if !more {
            return Ok((list, after));
        }
        left = after;
    }
}
