//! How items of an interface begin.
ghost use Rattle.std.specs.Prelude.{◌≡◌};
ghost use Rattle.wit_grammar.specs.Grammar.{item_keyword, item_mark, item_kind, is_item_start};

use wit_tokens::{Feature, Keyword, Punctuation, TokenKind};

/// What a keyword or a mark is where an item of an interface may stand.
#[derive(Clone, Copy)]
pub enum ItemStart {
    Use,
    Alias,
    Record,
    Variant,
    Enum,
    Flags,
    LeftOut(Feature),
    Nothing,
}

fn item_keyword(keyword: Keyword) -> ItemStart
    ensures { result ≡ item_keyword keyword }
{
    match keyword {
        Keyword::Use => ItemStart::Use,
        Keyword::Type => ItemStart::Alias,
        Keyword::Record => ItemStart::Record,
        Keyword::Variant => ItemStart::Variant,
        Keyword::Enum => ItemStart::Enum,
        Keyword::Flags => ItemStart::Flags,
        Keyword::Resource => ItemStart::LeftOut(Feature::Resource),
        _ => ItemStart::Nothing,
    }
}

fn item_mark(mark: Punctuation) -> ItemStart
    ensures { result ≡ item_mark mark }
{
    match mark {
        Punctuation::At => ItemStart::LeftOut(Feature::Gate),
        _ => ItemStart::Nothing,
    }
}

/// What a token of this kind is there, but for names.
pub fn item_kind(kind: TokenKind) -> ItemStart
    ensures { result ≡ item_kind kind }
{
    match kind {
        TokenKind::Keyword(keyword) => item_keyword(keyword),
        TokenKind::Punctuation(mark) => item_mark(mark),
        _ => ItemStart::Nothing,
    }
}

/// Whether an item of the profile begins so.
pub fn is_item_start(start: ItemStart) -> bool
    ensures { result ≡ is_item_start start }
{
    !matches!(start, ItemStart::LeftOut(_) | ItemStart::Nothing)
}
