//! What to do if a type, a name or a keyword has to come.

use crate::types::{begins_type, is_type};
use crate::words::near;
use near_names::{begins_function, declaration};
use text_builder::TextBuilder;
use wit_places::{Spot, Within, keyword_at, mark_at, opener, word_at};
use wit_text::{Keyword, Punctuation, TokenKind};

/// Whether a type has to come.
fn wants_type(spot: &Spot<'_>) -> bool {
    match mark_at(spot.lexed, spot.before) {
        Some(Punctuation::Less | Punctuation::Arrow | Punctuation::Equals) => true,
        Some(Punctuation::Colon) => matches!(spot.within, Within::Record | Within::Parameters),
        Some(Punctuation::Comma) => matches!(spot.within, Within::Angles),
        Some(Punctuation::OpenParenthesis) => matches!(spot.within, Within::Payload),
        _ => false,
    }
}

/// What to do about a keyword that begins no type.
fn of_no_type(text: &mut TextBuilder, spot: &Spot<'_>, keyword: Keyword) {
    let word = spot.word();
    text.push("a type has to come here");
    match (keyword, spot.within) {
        (Keyword::Func, Within::Record) => text.push("; is a `}` missing before the function?"),
        (Keyword::Record | Keyword::Variant | Keyword::Enum | Keyword::Flags, _) => {
            text.push_three(": declare the ", word, ", and write its name");
        }
        _ => text.push_three(", and `", word, "` begins none"),
    }
}

/// What to do about a mark in place of a type.
fn of_no_word(text: &mut TextBuilder, spot: &Spot<'_>, mark: Punctuation) {
    let next = mark_at(spot.lexed, spot.index.saturating_add(1));
    match mark {
        Punctuation::OpenParenthesis if next == Some(Punctuation::CloseParenthesis) => {
            text.push("write `_` instead of `()`");
        }
        Punctuation::OpenParenthesis => text.push("a tuple is written `tuple<..>`"),
        Punctuation::OpenBrace => text.push("declare a record, and write its name"),
        Punctuation::Comma if word_at(spot.lexed, spot.before.saturating_sub(1)) == "result" => {
            text.push("write `_` for no value: `result<_, ..>`");
        }
        _ => text.push_three("a type is missing after `", spot.word_before(), "`"),
    }
}

/// What to do if a type has to come.
fn of_type(text: &mut TextBuilder, spot: &Spot<'_>) {
    match (keyword_at(spot.lexed, spot.index), spot.mark()) {
        (Some(keyword), _) => of_no_type(text, spot, keyword),
        (None, Some(mark)) => of_no_word(text, spot, mark),
        (None, None) => {
            text.push_three("a type has to come here, and `", spot.word(), "` is none");
        }
    }
}

/// What a list or a body has.
fn thing(within: Within) -> &'static str {
    match within {
        Within::File => "an interface or a world",
        Within::Interface => "a type or a function",
        Within::World => "an import or an export",
        Within::Record => "a field",
        Within::Variant | Within::Enum => "a case",
        Within::Flags => "a label",
        Within::Use => "the name of a type",
        Within::Parameters => "a parameter",
        Within::Payload | Within::Angles => "a type",
    }
}

/// Whether a token is the name of a function of an interface, or a declaration.
fn is_item_at(spot: &Spot<'_>, index: usize) -> bool {
    match keyword_at(spot.lexed, index) {
        Some(keyword) => matches!(
            keyword,
            Keyword::Record | Keyword::Variant | Keyword::Enum | Keyword::Flags | Keyword::Type
        ),
        None => spot.lexed.function_at(index).is_some(),
    }
}

/// What to do about a keyword in place of a name: by default it can be escaped.
fn of_keyword(text: &mut TextBuilder, spot: &Spot<'_>, keyword: Keyword) {
    let next = spot.index.saturating_add(1);
    let is_alone = mark_at(spot.lexed, next) != Some(Punctuation::Colon);
    let word = spot.word();
    match spot.within {
        Within::Interface
            if matches!(
                keyword,
                Keyword::Static | Keyword::Async | Keyword::Import | Keyword::Export
            ) && is_item_at(spot, next) => {
            text.push_three("leave out `", word, "`");
        }
        Within::Interface | Within::World if is_alone && keyword == Keyword::Func => {
            text.push("a function is written `name: func(..)`");
        }
        Within::Interface if is_alone && matches!(keyword, Keyword::Import | Keyword::Export) => {
            text.push_three("`", word, "` is for worlds: in an interface, write `use`");
        }
        Within::Interface if is_alone && matches!(keyword, Keyword::Interface | Keyword::World) => {
            let open = opener(spot.lexed, spot.index).unwrap_or(0);
            let name = word_at(spot.lexed, open.saturating_sub(1));
            text.push_three("close `", name, "` with `}` before it: no ");
            text.push(word);
            text.push(" is in an interface");
        }
        Within::World if keyword == Keyword::Interface => {
            text.push("leave it out: write the name of the interface alone");
        }
        Within::Parameters | Within::Record if is_alone && is_type(keyword) => {
            text.push(thing(spot.within));
            text.push_three(" is `name: type`: write a name and `:` before `", word, "`");
        }
        Within::Interface if is_alone && is_type(keyword) => {
            text.push_three("a function is written `name: func(..) -> ", word, "`");
        }
        _ => {
            text.push_three("`", word, "` is a keyword: ");
            text.push_three("write `%", word, "`");
        }
    }
}

/// What to do about a `::`, at the second colon: in a `use`, or in a path.
fn of_colons(text: &mut TextBuilder, spot: &Spot<'_>) {
    let first = spot.before.saturating_sub(1);
    let next = spot.index.saturating_add(1);
    let is_use = keyword_at(spot.lexed, first.saturating_sub(1)) == Some(Keyword::Use);
    let interface = word_at(spot.lexed, first);
    match (mark_at(spot.lexed, next), spot.lexed.name_at(next)) {
        (Some(Punctuation::OpenBrace), _) if is_use => {
            text.push_three("write `.` instead of `::`: `use ", interface, ".{..};`");
        }
        (None, Some(name))
            if is_use
                && mark_at(spot.lexed, next.saturating_add(1)) == Some(Punctuation::Semicolon) => {
            text.push_three("a use is written `use ", interface, ".{");
            text.push(name);
            text.push("};`");
        }
        _ => text.push("a path is written `namespace:name/interface`"),
    }
}

/// What to do about a number in place of a name: it may be the front of a word.
fn of_number(text: &mut TextBuilder, spot: &Spot<'_>) {
    let next = spot.index.saturating_add(1);
    text.push("a name begins with a letter");
    if let (Some(span), Some(name)) = (spot.lexed.span_at(next), spot.lexed.name_at(next))
        && span.start == spot.span.end
    {
        text.push_three(": write `", name, spot.word());
        text.push("`");
    }
}

/// What to do if a name has to come, and a mark or nothing does.
fn of_no_name(text: &mut TextBuilder, spot: &Spot<'_>) {
    let (before, found) = (spot.word_before(), spot.mark());
    match mark_at(spot.lexed, spot.before) {
        Some(Punctuation::Colon) if found == Some(Punctuation::Colon) => of_colons(text, spot),
        None if before == "use" && found == Some(Punctuation::OpenBrace) => {
            text.push("a use is written `use interface.{name};`");
        }
        None | Some(Punctuation::Colon | Punctuation::Slash) => {
            text.push_three("a name is missing after `", before, "`");
        }
        Some(Punctuation::Comma) if found == Some(Punctuation::CloseParenthesis) => {
            text.push("leave out the `,` before it");
        }
        _ => {
            text.push(thing(spot.within));
            text.push(" has to come here");
            match found {
                Some(Punctuation::CloseBrace) => text.push(": there is at least one"),
                Some(Punctuation::Semicolon | Punctuation::Comma) => {
                    text.push_three(": leave out the `", spot.word(), "`");
                }
                _ => {}
            }
        }
    }
}

/// What to do if a type or a name has to come.
pub fn of_identifier(text: &mut TextBuilder, spot: &Spot<'_>) {
    if wants_type(spot) {
        of_type(text, spot);
    } else if let Some(keyword) = keyword_at(spot.lexed, spot.index) {
        of_keyword(text, spot, keyword);
    } else if spot.lexed.name_at(spot.index).is_some() {
        text.push("the name of a package is in lower case");
    } else if let Some(token) = spot.lexed.tokens.get(spot.index)
        && token.kind == TokenKind::Integer
    {
        of_number(text, spot);
    } else {
        of_no_name(text, spot);
    }
}

/// What to do if `func` has to come.
fn of_func(text: &mut TextBuilder, spot: &Spot<'_>) {
    let word = spot.word();
    let next = spot.index.saturating_add(1);
    match (spot.mark(), mark_at(spot.lexed, next)) {
        _ if begins_function(word) => text.push_three("write `func` instead of `", word, "`"),
        (Some(Punctuation::OpenParenthesis), _) => text.push("write `func` before it"),
        (None, Some(Punctuation::OpenParenthesis)) => match near(text, word, &["func"]) {
            Some(name) => text.push_three("did you mean `", name, "`?"),
            None => text.push_three("write `func` instead of `", word, "`"),
        },
        (None, Some(Punctuation::Semicolon)) if begins_type(spot) => {
            text.push_three(
                "an interface has no fields: write `func() -> ",
                word,
                "`, or a record",
            );
        }
        (None, Some(Punctuation::Less)) if begins_type(spot) => {
            text.push("an interface has no fields: write `func() ->` before the type, or a record");
        }
        (None, _) if keyword_at(spot.lexed, next) == Some(Keyword::Func) => {
            text.push_three("leave out `", word, "`");
        }
        _ => text.push("a function is written `name: func(..)`"),
    }
}

/// The words that begin what an interface has.
static OF_INTERFACES: [&str; 6] = ["record", "variant", "enum", "flags", "type", "use"];

/// What to do about a word where an interface or a world has to come. It may begin what an interface has.
fn of_file_word(text: &mut TextBuilder, spot: &Spot<'_>) {
    let word = spot.word();
    if let Some(name) = near(text, word, &["interface", "world"]) {
        text.push_three("did you mean `", name, "`?");
    } else if declaration(word) == Some("interface") {
        text.push_three("write `interface` instead of `", word, "`");
    } else if near(text, word, &OF_INTERFACES).is_some()
        || spot.lexed.is_named(spot.index)
        || begins_function(word)
        || declaration(word).is_some()
    {
        text.push("put it into an interface: `interface NAME { .. }`");
    } else {
        text.push("an interface or a world has to come here");
    }
}

/// What to do if an interface or a world has to come.
fn of_file(text: &mut TextBuilder, spot: &Spot<'_>) {
    let next = keyword_at(spot.lexed, spot.index.saturating_add(1));
    match (spot.mark(), keyword_at(spot.lexed, spot.index)) {
        (Some(Punctuation::CloseBrace), _) => {
            text.push("leave it out: all braces are closed before it");
        }
        (Some(Punctuation::Semicolon), _) => text.push("leave it out: no `;` comes here"),
        (Some(_), _) => text.push("an interface or a world has to come here"),
        (None, _) if matches!(next, Some(Keyword::Interface | Keyword::World)) => {
            text.push_three("leave out `", spot.word(), "`");
        }
        (None, Some(Keyword::Import | Keyword::Export | Keyword::Include)) => {
            text.push("put it into a world: `world NAME { .. }`");
        }
        (None, Some(_)) => text.push("put it into an interface: `interface NAME { .. }`"),
        (None, None) => of_file_word(text, spot),
    }
}

/// What to do if a keyword has to come that none of the words is near to which may come.
fn of_no_keyword(spot: &Spot<'_>, keyword: Keyword) -> &'static str {
    match keyword {
        Keyword::Package =>
            "begin the file with `package NAMESPACE:NAME;`, or give it with files of one package",
        _ if spot.mark() == Some(Punctuation::Semicolon) => "leave it out: no `;` comes here",
        _ => "a world has imports and exports: write `import` or `export`",
    }
}

/// What to do if a keyword has to come.
pub fn of_missing_keyword(text: &mut TextBuilder, spot: &Spot<'_>, keyword: Keyword) {
    let words: &[&str] = match keyword {
        Keyword::Func => return of_func(text, spot),
        Keyword::Interface => return of_file(text, spot),
        Keyword::Package => &["package"],
        _ => &["import", "export", "include", "use", "type"],
    };
    match near(text, spot.word(), words) {
        Some(name) => text.push_three("did you mean `", name, "`?"),
        None => text.push(of_no_keyword(spot, keyword)),
    }
}
