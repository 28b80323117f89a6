//! What to do if a mark has to come.

use crate::earlier::earlier_line;
use crate::types::{begins_type, of_bare, of_error_type, of_too_many, precedes_type};
use crate::versions::{of_at, of_version};
use near_names::{begins_function, declaration, did_you_mean, holder_for, is_constant};
use text_builder::TextBuilder;
use wit_places::{Spot, Within, keyword_at, mark_at, word_at};
use wit_text::{Keyword, Punctuation};

/// What to do about a `>` that closes nothing.
static NO_OPEN_ANGLE: &str = "leave it out: no `<` is open here";

/// What a mark tells that is found in place of a `,`.
fn for_comma(within: Within, found: Punctuation) -> &'static str {
    match (within, found) {
        (
            Within::Angles,
            Punctuation::Semicolon
            | Punctuation::CloseParenthesis
            | Punctuation::CloseBrace
            | Punctuation::Arrow,
        ) => "write `>` before it",
        (Within::Parameters, Punctuation::CloseBrace | Punctuation::Arrow) => "write `)` before it",
        (_, Punctuation::Semicolon) => "write `,` instead of `;`",
        (_, Punctuation::Greater) => NO_OPEN_ANGLE,
        (Within::Use, _) => "",
        (Within::Enum, Punctuation::OpenParenthesis) =>
            "cases of an enum hold no value: write `variant` instead of `enum`",
        (Within::Enum, Punctuation::Colon) =>
            "cases of an enum hold no value: write `record` instead of `enum`",
        (Within::Flags, Punctuation::OpenParenthesis | Punctuation::Colon) =>
            "labels of flags hold no value: write `record` instead of `flags`",
        (Within::Variant, Punctuation::Colon) => "a case with a value is written `name(type)`",
        (Within::Variant, Punctuation::OpenBrace) =>
            "a case holds one type: declare a record, and write its name in `(` and `)`",
        (Within::Enum | Within::Variant | Within::Flags, Punctuation::Equals) =>
            "the order gives the numbers: leave out `=` and what comes after it",
        (_, Punctuation::Equals) => "nothing has a default: leave out `=` and what comes after it",
        (_, Punctuation::OpenParenthesis) => "types within a type are in `<` and `>`",
        (_, Punctuation::Colon | Punctuation::Dot | Punctuation::Slash) =>
            "a type is one name: bring it in by `use interface.{name};`",
        _ => "",
    }
}

/// What a mark tells that is found in place of another one.
fn for_other(within: Within, mark: Punctuation, found: Punctuation) -> &'static str {
    match (mark, found) {
        (Punctuation::Comma, _) => for_comma(within, found),
        (Punctuation::Semicolon, Punctuation::Comma) => "write `;` instead of `,`",
        (Punctuation::Semicolon | Punctuation::Arrow, Punctuation::Greater) => NO_OPEN_ANGLE,
        (Punctuation::Semicolon | Punctuation::Arrow, Punctuation::OpenBrace) =>
            "a function has no body: write `;` in place of the braces",
        (Punctuation::Semicolon, Punctuation::Colon | Punctuation::Dot | Punctuation::Slash) =>
            match within {
                Within::File => "a package is `namespace:name`, or `namespace:name@1.0.0`",
                _ => "a type is one name: bring it in by `use interface.{name};`",
            },
        (Punctuation::Arrow, Punctuation::Colon) => "write `->` instead of `:`",
        (Punctuation::Arrow, Punctuation::Equals) => "write `->` instead of `=>`",
        (Punctuation::Equals, Punctuation::Colon) => "write `=` instead of `:`",
        (Punctuation::Equals, Punctuation::OpenBrace) => "write `record` instead of `type`",
        (Punctuation::OpenBrace, Punctuation::Equals) => "leave out the `=`",
        (Punctuation::OpenBrace, Punctuation::OpenParenthesis) => "write `{` instead of `(`",
        (Punctuation::OpenBrace, Punctuation::Colon) =>
            "nothing is inherited: leave out the `:` and what comes after it",
        (Punctuation::CloseParenthesis, Punctuation::Comma) =>
            "a case holds one type: write `tuple<..>` for more",
        (Punctuation::CloseParenthesis, Punctuation::Colon) => "a case holds a type without a name",
        (Punctuation::Less, Punctuation::OpenParenthesis) => "write `<` instead of `(`",
        (Punctuation::Dot, Punctuation::Semicolon) =>
            "say which types are used: write `.{name}` before it",
        (Punctuation::Slash, Punctuation::Semicolon | Punctuation::Dot) =>
            "write `/` and the name of an interface before it",
        _ => "",
    }
}

/// What to do about a `<`: after the name of a type, or of what is declared.
fn of_less(text: &mut TextBuilder, spot: &Spot<'_>, mark: Punctuation) {
    if matches!(
        mark,
        Punctuation::OpenBrace
            | Punctuation::OpenParenthesis
            | Punctuation::Equals
            | Punctuation::Colon
    ) {
        return text.push("WIT has no type parameters: leave out `<` and what comes up to the `>`");
    }
    let word = spot.word_before();
    match holder_for(word) {
        Some(holder) => {
            text.push_three("write `", holder, "`");
            text.push_three(" instead of `", word, "<..>`");
        }
        None => text.push_three(
            "`",
            word,
            "` holds no types: `list`, `option`, `result`, `tuple` do",
        ),
    }
}

/// What to do about a constant, at its name or its type.
fn of_constant(text: &mut TextBuilder, spot: &Spot<'_>) {
    let name = spot.lexed.name_at(spot.index).unwrap_or("NAME");
    let next = spot.index.saturating_add(1);
    let is_typed = mark_at(spot.lexed, next) == Some(Punctuation::Colon)
        && mark_at(spot.lexed, next.saturating_add(2)) == Some(Punctuation::Equals);
    let ty = if is_typed {
        word_at(spot.lexed, next.saturating_add(1))
    } else {
        ".."
    };
    text.push_three(
        "WIT has no constants: return it from a function, `",
        name,
        ": func() -> ",
    );
    text.push(ty);
    text.push("`");
}

/// How a function is written.
fn push_function(text: &mut TextBuilder, name: &str) {
    text.push_three("a function is written `", name, ": func(..)`");
}

/// What to do about two words that begin an item of an interface, by what comes after. No text if it tells nothing.
fn of_strange_word(text: &mut TextBuilder, spot: &Spot<'_>) {
    let alloc = text.alloc();
    let name = spot.word_before();
    let next = spot.index.saturating_add(1);
    match (mark_at(spot.lexed, next), spot.lexed.name_at(next)) {
        (Some(Punctuation::OpenBrace), _) => {
            let words = ["record", "variant", "enum", "flags", "resource"];
            text.push_made(did_you_mean(alloc, name, &words));
        }
        (Some(Punctuation::Equals), _) => text.push_made(did_you_mean(alloc, name, &["type"])),
        (Some(Punctuation::Dot), _) => text.push_made(did_you_mean(alloc, name, &["use"])),
        (Some(Punctuation::Colon), _) => text.push_three("leave out `", name, "`"),
        (None, Some(function)) if begins_function(spot.word()) => push_function(text, function),
        _ => {}
    }
}

/// What to do about two words that begin an item of an interface.
fn of_two_words(text: &mut TextBuilder, spot: &Spot<'_>) {
    let name = spot.word_before();
    if begins_function(name) {
        push_function(text, spot.word());
    } else if let Some(keyword) = declaration(name) {
        text.push_three("write `", keyword, "`");
        text.push_three(" instead of `", name, "`");
    } else if is_constant(name) {
        of_constant(text, spot);
    } else {
        of_strange_word(text, spot);
    }
}

/// What to do after a name of an interface that no `:` comes after.
fn of_item(text: &mut TextBuilder, spot: &Spot<'_>) {
    let name = spot.word_before();
    let next = keyword_at(spot.lexed, spot.index.saturating_add(1));
    match spot.mark() {
        None => of_two_words(text, spot),
        Some(Punctuation::Equals) if next == Some(Keyword::Func) => {
            text.push("write `:` instead of `=`");
        }
        Some(Punctuation::Equals) => text.push_three("write `type` before `", name, "`"),
        Some(Punctuation::OpenBrace) => {
            text.push_three(
                "write `record`, `variant`, `enum` or `flags` before `",
                name,
                "`",
            );
        }
        Some(_) => push_function(text, name),
    }
}

/// What to do after a name of a field or a parameter that no `:` comes after.
fn of_member(text: &mut TextBuilder, spot: &Spot<'_>, member: &str) {
    let name = spot.word_before();
    match spot.mark() {
        Some(Punctuation::Equals) => text.push("write `:` instead of `=`"),
        Some(_) => {
            text.push_three("a ", member, " is `name: type`");
            text.push_three(": only `", name, "` is here");
        }
        None if spot.lexed.is_named(spot.index) => text.push_three("leave out `", name, "`"),
        None if spot.lexed.name_at(spot.index).is_some() => {
            text.push_three("a ", member, " is `name: type`");
        }
        None => {}
    }
}

/// What to do after the namespace of a package that no `:` comes after.
fn of_package(text: &mut TextBuilder, spot: &Spot<'_>) {
    let namespace = spot.word_before();
    let name = match spot.mark() {
        Some(Punctuation::Slash | Punctuation::Dot) => {
            spot.lexed.name_at(spot.index.saturating_add(1))
        }
        _ => spot.lexed.name_at(spot.index),
    };
    let name = name.unwrap_or("NAME");
    text.push_three("a package is `namespace:name`: write `", namespace, ":");
    text.push(name);
    text.push("`");
}

/// What to do after a name that no `:` comes after. No text if this alone is missing.
fn of_colon(text: &mut TextBuilder, spot: &Spot<'_>) {
    let name = spot.word_before();
    let found = spot.mark();
    let is_use = keyword_at(spot.lexed, spot.before.saturating_sub(1)) == Some(Keyword::Use);
    match spot.within {
        Within::File => of_package(text, spot),
        Within::Interface | Within::World if found == Some(Punctuation::Slash) => {
            text.push("a path is written `namespace:name/interface`");
        }
        Within::World if found == Some(Punctuation::Dot) => {
            text.push("a path is written `namespace:name/interface`");
        }
        Within::Interface | Within::World if spot.is_version() => {
            of_version(text, spot, Punctuation::Colon);
        }
        _ if is_use && found == Some(Punctuation::OpenBrace) => text.push("write `.` before it"),
        _ if is_use => text.push_three("say which types are used: `use ", name, ".{name};`"),
        Within::Record => of_member(text, spot, "field"),
        Within::Parameters => of_member(text, spot, "parameter"),
        Within::Interface => of_item(text, spot),
        Within::World if found == Some(Punctuation::OpenParenthesis) => of_item(text, spot),
        _ => {}
    }
}

/// What to do about a mark between a used name and another name. No text if it tells nothing.
fn of_renamed(text: &mut TextBuilder, spot: &Spot<'_>) {
    let (before, mark) = (spot.word_before(), spot.word());
    let next = spot.index.saturating_add(1);
    match (spot.mark(), spot.lexed.name_at(next)) {
        (Some(Punctuation::Colon | Punctuation::Equals | Punctuation::Arrow), Some(name)) => {
            text.push_three("write `as` instead of `", mark, "`: `");
            text.push_three(before, " as ", name);
            text.push("`");
        }
        (Some(found), _) => text.push(for_comma(spot.within, found)),
        _ => {}
    }
}

/// Whether a token is in the braces of a declaration, among its fields, cases or labels.
fn is_member(spot: &Spot<'_>) -> bool {
    matches!(
        spot.within,
        Within::Record | Within::Variant | Within::Enum | Within::Flags
    )
}

/// What the token tells that is found in place of a `,` or a `;`. It may be the `:` of a function in braces that have
/// to be closed before it. No text if the mark alone is missing.
fn of_end(text: &mut TextBuilder, spot: &Spot<'_>, mark: Punctuation) {
    match (mark, spot.within, spot.mark()) {
        (Punctuation::Comma, Within::Use, _) => of_renamed(text, spot),
        (Punctuation::Comma, _, _)
            if is_member(spot) && spot.lexed.function_at(spot.before).is_some() => {
            text.push_three("is a `}` missing before `", spot.word_before(), "`?");
        }
        (Punctuation::Comma, Within::Angles, Some(Punctuation::Semicolon)) if precedes_type(spot) =>
            {
                text.push("write `,` instead of `;`");
            }
        (Punctuation::Semicolon, _, None) => of_error_type(text, spot),
        (Punctuation::Semicolon, Within::File, Some(Punctuation::At)) => of_at(text, spot),
        (_, _, Some(found)) => text.push(for_other(spot.within, mark, found)),
        _ => {}
    }
}

/// What the token tells that is found in place of a mark. No text if the mark alone is missing.
fn of_found(text: &mut TextBuilder, spot: &Spot<'_>, mark: Punctuation) {
    let (word, before) = (spot.word(), spot.word_before());
    let found = spot.mark();
    match mark {
        _ if found == Some(Punctuation::Less) => of_less(text, spot, mark),
        Punctuation::Colon => of_colon(text, spot),
        Punctuation::Comma | Punctuation::Semicolon => of_end(text, spot, mark),
        Punctuation::Greater if found == Some(Punctuation::Comma) => of_too_many(text, spot),
        _ if spot.is_version() => of_version(text, spot, mark),
        Punctuation::OpenParenthesis
            if before == "func" && !matches!(found, None | Some(Punctuation::CloseParenthesis)) => {
            text.push("write `func()`: a function has parentheses also without parameters");
        }
        Punctuation::Less if found != Some(Punctuation::OpenParenthesis) && before != "result" => {
            text.push(of_bare(before));
        }
        Punctuation::Slash if found == Some(Punctuation::OpenParenthesis) => {
            text.push_three("write `func` instead of `", before, "`");
        }
        Punctuation::OpenBrace if found.is_none() && before == "." => {
            text.push_three("used names are in braces: write `{", word, "}`");
        }
        _ => {
            if let Some(found) = found {
                text.push(for_other(spot.within, mark, found));
            }
        }
    }
}

/// Whether a token begins a declaration or a function after braces that have to be closed.
fn is_list_over(spot: &Spot<'_>) -> bool {
    let is_declaration = matches!(
        keyword_at(spot.lexed, spot.index),
        Some(
            Keyword::Record
                | Keyword::Variant
                | Keyword::Enum
                | Keyword::Flags
                | Keyword::Type
                | Keyword::Use
                | Keyword::Interface
                | Keyword::World
        )
    ) && spot.lexed.name_at(spot.index.saturating_add(1)).is_some();
    is_member(spot) && (is_declaration || spot.lexed.function_at(spot.index).is_some())
}

/// Whether a `;` is found in parameters that have to be closed: neither a parameter nor their end comes after it.
fn are_parameters_over(spot: &Spot<'_>, mark: Punctuation) -> bool {
    let next = spot.index.saturating_add(1);
    mark == Punctuation::Comma
        && matches!(spot.within, Within::Parameters)
        && spot.mark() == Some(Punctuation::Semicolon)
        && mark_at(spot.lexed, next) != Some(Punctuation::CloseParenthesis)
        && (!spot.lexed.is_named(next) || spot.lexed.function_at(next).is_some())
}

/// Whether a token begins an item of a file, an interface or a world.
fn begins_item(spot: &Spot<'_>) -> bool {
    match keyword_at(spot.lexed, spot.index) {
        Some(keyword) => matches!(
            keyword,
            Keyword::Use
                | Keyword::Type
                | Keyword::Record
                | Keyword::Variant
                | Keyword::Enum
                | Keyword::Flags
                | Keyword::Resource
                | Keyword::Interface
                | Keyword::World
                | Keyword::Import
                | Keyword::Export
                | Keyword::Include
        ),
        None => spot.lexed.is_named(spot.index),
    }
}

/// Whether a text may go on with the token after this mark. If in doubt, it may not.
fn may_go_on(spot: &Spot<'_>, mark: Punctuation) -> bool {
    let found = spot.mark();
    let is_over = earlier_line(spot).is_some() || spot.word().is_empty();
    let is_end = matches!(
        found,
        Some(Punctuation::Semicolon | Punctuation::CloseBrace | Punctuation::CloseParenthesis)
    );
    let is_word = begins_type(spot);
    match (mark, spot.within) {
        (Punctuation::Semicolon, _) => is_over
            || found == Some(Punctuation::CloseBrace)
            || begins_item(spot),
        (Punctuation::Greater | Punctuation::CloseParenthesis, _) => is_over
            || is_end
            || (mark == Punctuation::CloseParenthesis && found == Some(Punctuation::Arrow)),
        (Punctuation::OpenBrace, _) => is_word
            || begins_item(spot)
            || found == Some(Punctuation::CloseBrace),
        (Punctuation::Dot, _) => found == Some(Punctuation::OpenBrace),
        (Punctuation::OpenParenthesis, _) => spot.lexed.is_named(spot.index)
            || found == Some(Punctuation::CloseParenthesis),
        (Punctuation::Colon, Within::Interface | Within::World) => matches!(
            keyword_at(spot.lexed, spot.index),
            Some(Keyword::Func | Keyword::Interface)
        ),
        (Punctuation::Comma, Within::Record | Within::Parameters) => is_over
            || spot.lexed.is_named(spot.index),
        (Punctuation::CloseBrace, _) => is_over || is_word || begins_item(spot),
        _ => is_word,
    }
}

/// The mark that is missing, if one of several may come: a `;` where an item ends, and what closes a list.
fn missing(spot: &Spot<'_>, mark: Punctuation) -> Punctuation {
    let is_item_over = spot.mark() == Some(Punctuation::CloseBrace)
        || earlier_line(spot).is_some()
        || begins_item(spot);
    match (mark, spot.within) {
        (Punctuation::Less, _) if spot.word_before() == "result" => Punctuation::Greater,
        (Punctuation::Colon, Within::World)
            if keyword_at(spot.lexed, spot.index) == Some(Keyword::Interface) => { mark }
        (Punctuation::Arrow, _) | (Punctuation::Colon, Within::World) if is_item_over => {
            Punctuation::Semicolon
        }
        _ if are_parameters_over(spot, mark) => Punctuation::CloseParenthesis,
        (Punctuation::Comma, _) if is_list_over(spot) => Punctuation::CloseBrace,
        _ => mark,
    }
}

/// Where to write a mark that is missing, if the text can go on then: after the token before, if this is in an earlier
/// line.
fn of_missing(text: &mut TextBuilder, spot: &Spot<'_>, mark: Punctuation) {
    let mark = missing(spot, mark);
    if !may_go_on(spot, mark) {
        return;
    }
    let name = mark.to_string(text.alloc());
    text.push("write `");
    text.push_made(name);
    match earlier_line(spot) {
        Some(line) => {
            text.push_three("` after `", spot.word_before(), "`, in line ");
            text.push_number(line);
        }
        None => text.push("` before it"),
    }
}

/// What to do if this mark has to come. If what is found in its place tells nothing, where to write it.
pub fn of_mark(text: &mut TextBuilder, spot: &Spot<'_>, mark: Punctuation) {
    let before = text.as_str().len();
    if !are_parameters_over(spot, mark) {
        of_found(text, spot, mark);
    }
    if text.as_str().len() == before {
        of_missing(text, spot, mark);
    }
}
