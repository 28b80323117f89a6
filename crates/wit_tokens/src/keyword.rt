//! How keywords are spelled.
ghost use Rattle.std.specs.Prelude.{◌≡◌, Some};
ghost use Rattle.wit_tokens.specs.Keywords.{spelling, keyword_at, keyword_of};
ghost use Rattle.wit_tokens.specs.declared.token.Keyword.{Keyword};

use crate::token::Keyword;
use std::fmt;

/// The bytes of the longest keyword.
const LONGEST: usize = 13;

/// The keyword's word.
pub fn spelling(keyword: Keyword) -> &'static str
    ensures { result.now ≡ spelling keyword }
{
    match keyword {
        Keyword::As => "as",
        Keyword::Async => "async",
        Keyword::Bool => "bool",
        Keyword::Borrow => "borrow",
        Keyword::Char => "char",
        Keyword::Constructor => "constructor",
        Keyword::Enum => "enum",
        Keyword::ErrorContext => "error-context",
        Keyword::Export => "export",
        Keyword::F32 => "f32",
        Keyword::F64 => "f64",
        Keyword::Flags => "flags",
        Keyword::From => "from",
        Keyword::Func => "func",
        Keyword::Future => "future",
        Keyword::Import => "import",
        Keyword::Include => "include",
        Keyword::Interface => "interface",
        Keyword::List => "list",
        Keyword::Map => "map",
        Keyword::Option => "option",
        Keyword::Own => "own",
        Keyword::Package => "package",
        Keyword::Record => "record",
        Keyword::Resource => "resource",
        Keyword::Result => "result",
        Keyword::S16 => "s16",
        Keyword::S32 => "s32",
        Keyword::S64 => "s64",
        Keyword::S8 => "s8",
        Keyword::Static => "static",
        Keyword::Stream => "stream",
        Keyword::String => "string",
        Keyword::Tuple => "tuple",
        Keyword::Type => "type",
        Keyword::U16 => "u16",
        Keyword::U32 => "u32",
        Keyword::U64 => "u64",
        Keyword::U8 => "u8",
        Keyword::Use => "use",
        Keyword::Variant => "variant",
        Keyword::With => "with",
        Keyword::World => "world",
    }
}

impl fmt::Display for Keyword {
    fn fmt<W: fmt::Write>(&self, f: &mut fmt::Formatter<W>) -> fmt::Result {
        f.write_str(spelling(*self))
    }
}

impl fmt::Debug for Keyword {
    fn fmt<W: fmt::Write>(&self, f: &mut fmt::Formatter<W>) -> fmt::Result {
        fmt::Display::fmt(self, f)
    }
}

/// The keyword with this place. Each keyword has a place of its own, from 0 to 127.
#[tactic(auto, unfolding(crate::specs::Keywords::keywords))]
#[inline(always)]
fn keyword_at(place: usize) -> Option<Keyword>
    ensures { result ≡ keyword_at place }
{
    match place {
        64 => Some(Keyword::As),
        115 => Some(Keyword::Async),
        14 => Some(Keyword::Bool),
        79 => Some(Keyword::Borrow),
        83 => Some(Keyword::Char),
        90 => Some(Keyword::Constructor),
        112 => Some(Keyword::Enum),
        68 => Some(Keyword::ErrorContext),
        61 => Some(Keyword::Export),
        87 => Some(Keyword::F32),
        17 => Some(Keyword::F64),
        54 => Some(Keyword::Flags),
        7 => Some(Keyword::From),
        101 => Some(Keyword::Func),
        33 => Some(Keyword::Future),
        25 => Some(Keyword::Import),
        103 => Some(Keyword::Include),
        105 => Some(Keyword::Interface),
        92 => Some(Keyword::List),
        126 => Some(Keyword::Map),
        117 => Some(Keyword::Option),
        114 => Some(Keyword::Own),
        8 => Some(Keyword::Package),
        24 => Some(Keyword::Record),
        55 => Some(Keyword::Resource),
        104 => Some(Keyword::Result),
        118 => Some(Keyword::S16),
        2 => Some(Keyword::S32),
        60 => Some(Keyword::S64),
        47 => Some(Keyword::S8),
        18 => Some(Keyword::Static),
        52 => Some(Keyword::Stream),
        6 => Some(Keyword::String),
        98 => Some(Keyword::Tuple),
        97 => Some(Keyword::Type),
        36 => Some(Keyword::U16),
        48 => Some(Keyword::U32),
        106 => Some(Keyword::U64),
        93 => Some(Keyword::U8),
        119 => Some(Keyword::Use),
        69 => Some(Keyword::Variant),
        125 => Some(Keyword::With),
        10 => Some(Keyword::World),
        _ => None,
    }
}

/// The one keyword that the word can be, by its first byte, its last byte and its length.
#[inline(always)]
fn candidate(word: &[u8]) -> Option<Keyword>
    ensures { (k : Keyword) → word.now ≡ spelling k → result ≡ Some k }
{
    let [first, .., last] = word else {
        return None;
    };
    let place = 23 * usize::from(*first) + 29 * usize::from(*last) + word.len();
    keyword_at(place % 128)
}

/// The keyword that is spelled so.
#[inline(always)]
pub fn keyword_of(word: &[u8]) -> Option<Keyword>
    ensures { result ≡ keyword_of word.now }
{
    if word.len() > LONGEST {
        return None;
    }
    match candidate(word) {
        Some(keyword) if word == spelling(keyword).as_bytes() => Some(keyword),
        _ => None,
    }
}
