//! What to do where an item of a file, an interface, a world or a resource has to come.

use crate::generics::of_parameters_of_types;
use crate::missing::is_item_or_extern;
use near_names::{begins_function, declaration, is_constant};
use wit_findings::{Draft, Spot, is_function, is_item, is_type, type_end};
use wit_tokens::{Keyword, Punctuation};
use word_rules::meant;

/// The keywords that begin an item of an interface.
static OF_INTERFACES: [&str; 6] = ["record", "variant", "enum", "flags", "type", "use"];

/// The keywords that begin an item of a world.
static OF_WORLDS: [&str; 5] = ["import", "export", "include", "use", "type"];

/// Leaves out the word here, before what comes next.
fn leave_out(draft: &mut Draft, spot: Spot<'_>) {
    draft.say(&["leave out `", spot.here(), "`"]);
    draft.write(spot.start(spot.at), spot.start(spot.ahead(1)), &[]);
}

/// The index of the name of a function that another language's words are before, from this one on.
fn function_name(spot: Spot<'_>) -> Option<usize> {
    for count in 0..3 {
        let (index, name) = (spot.ahead(count), spot.ahead(count.saturating_add(1)));
        let is_head = begins_function(spot.word(index)) && spot.is_word(name);
        if is_head && spot.mark(name.saturating_add(1)) == Some(Punctuation::OpenParenthesis) {
            return Some(name);
        }
        if !spot.is_word(index) {
            return None;
        }
    }
    None
}

/// How a function is written that other languages' words begin. Whether one is here.
pub(crate) fn of_function(draft: &mut Draft, spot: Spot<'_>) -> bool {
    let Some(name) = function_name(spot) else {
        return false;
    };
    let (front, word) = (spot.words(spot.at, name), spot.word(name));
    draft.say(&[
        "a function is written `",
        word,
        ": func(..)`, not `",
        front,
        "(..)`",
    ]);
    draft.write(spot.start(spot.at), spot.end(name), &[word, ": func"]);
    true
}

/// Whether a name and `(` are at an index.
fn is_called(spot: Spot<'_>, index: usize) -> bool {
    spot.is_name(index) && spot.mark(index.saturating_add(1)) == Some(Punctuation::OpenParenthesis)
}

/// How a function is written whose result comes first, from a type's keyword on. Whether one is here.
fn of_result_first(draft: &mut Draft, spot: Spot<'_>) -> bool {
    let Some(last) = type_end(spot, spot.at) else {
        return false;
    };
    let name = last.saturating_add(1);
    if spot.is_name(spot.at) || !is_called(spot, name) {
        return false;
    }
    let (word, ty) = (spot.word(name), spot.words(spot.at, last));
    draft.say(&["a function is written `", word, ": func(..) -> ", ty, "`"]);
    true
}

/// What to do about a new name for a type that is written in another order: the type first.
fn of_typedef(draft: &mut Draft, spot: Spot<'_>) {
    let Some(last) = type_end(spot, spot.ahead(1)) else {
        return draft.replace(spot, "type");
    };
    let (ty, name) = (spot.words(spot.ahead(1), last), last.saturating_add(1));
    if spot.is_word(name) {
        let word = spot.word(name);
        draft.say(&["a type is written `type ", word, " = ", ty, ";`"]);
        draft.write(
            spot.start(spot.at),
            spot.end(name),
            &["type ", word, " = ", ty],
        );
    } else {
        draft.replace(spot, "type");
    }
}

/// What to do about a constant, from its keyword on.
fn of_constant(draft: &mut Draft, spot: Spot<'_>) {
    let is_typed = spot.is_named(spot.ahead(1));
    let ty = if is_typed {
        spot.word(spot.ahead(3))
    } else {
        ".."
    };
    draft.say(&[
        "WIT has no constants: return it from a function, `",
        spot.word(spot.ahead(1)),
        ": func() -> ",
        ty,
        "`",
    ]);
}

/// What to do about two words where an item of an interface has to come.
fn of_two_words(draft: &mut Draft, spot: Spot<'_>) {
    let word = spot.here();
    if spot.keyword(spot.ahead(1)) == Some(Keyword::Func) {
        let at = spot.end(spot.at);
        draft.say(&["a function is written `", word, ": func(..)`"]);
        draft.write(at, at, &[":"]);
    } else if let Some(keyword) = declaration(word) {
        match keyword {
            "interface" => draft.say(&["move it out of the braces: it belongs to a file"]),
            "type" => of_typedef(draft, spot),
            _ => draft.replace(spot, keyword),
        }
    } else if is_constant(word) {
        of_constant(draft, spot);
    } else if is_item_or_extern(spot, spot.ahead(1)) || spot.is_named(spot.ahead(1)) {
        leave_out(draft, spot);
    } else if let Some(keyword) = meant(draft, word, &OF_INTERFACES) {
        draft.replace(spot, keyword);
    } else if is_called(spot, spot.ahead(1)) {
        draft.say(&[
            "a function is written `",
            spot.word(spot.ahead(1)),
            ": func(..)`",
        ]);
    }
}

/// What to do about a word that is no keyword where an item of an interface has to come.
fn of_interface_word(draft: &mut Draft, spot: Spot<'_>) {
    let (word, next) = (spot.here(), spot.ahead(1));
    match spot.mark(next) {
        None if spot.is_word(next) => of_two_words(draft, spot),
        Some(Punctuation::Equals) => {
            draft.say(&["write `type` before `", word, "`"]);
            draft.write(spot.start(spot.at), spot.start(spot.at), &["type "]);
        }
        Some(Punctuation::OpenBrace) => {
            draft.say(&[
                "write `record`, `variant`, `enum` or `flags` before `",
                word,
                "`",
            ]);
        }
        Some(Punctuation::Less) => {
            draft.place(spot.start(next), spot.end(next));
            let _ = of_parameters_of_types(draft, spot.moved(next));
        }
        _ => draft.say(&["a function is written `", word, ": func(..)`"]),
    }
}

/// What to do about a keyword where an item of an interface has to come.
fn of_interface_keyword(draft: &mut Draft, spot: Spot<'_>, keyword: Keyword) {
    let word = spot.here();
    let is_modifier = matches!(
        keyword,
        Keyword::Static | Keyword::Async | Keyword::Import | Keyword::Export
    );
    match keyword {
        _ if is_modifier && is_item(spot, spot.ahead(1)) => leave_out(draft, spot),
        Keyword::Interface | Keyword::World | Keyword::Package => {
            draft.say(&[
                "move this ",
                word,
                " out of the braces: it belongs to a file",
            ]);
        }
        Keyword::Import | Keyword::Export | Keyword::Include => {
            draft.say(&[
                "`",
                word,
                "` is for worlds: in an interface, write `use interface.{name};`",
            ]);
            draft.muted = spot.line_end(spot.at);
        }
        Keyword::Constructor => draft.say(&["a constructor belongs to a resource"]),
        _ if is_type(keyword) => {
            draft.say(&["a function is written `name: func(..) -> ", word, "`"]);
        }
        _ => draft.say(&["a function is written `name: func(..)`"]),
    }
}

/// What to do where an item of an interface has to come.
pub(crate) fn of_interface(draft: &mut Draft, spot: Spot<'_>) {
    if of_function(draft, spot) || of_result_first(draft, spot) {
        return;
    }
    if let Some(keyword) = spot.keyword(spot.at) {
        of_interface_keyword(draft, spot, keyword);
    } else if spot.is_name(spot.at) {
        of_interface_word(draft, spot);
    } else {
        of_other(draft, spot, "a type, a function or a use");
    }
    if draft.is_open() {
        draft.say(&["a type, a function or a use has to come here"]);
    }
}

/// What to do about a mark or a number where an item has to come.
fn of_other(draft: &mut Draft, spot: Spot<'_>, wanted: &str) {
    if spot.mark(spot.at) == Some(Punctuation::Slash) {
        draft.say(&["a comment begins with `//`"]);
    } else {
        draft.say(&[wanted, " has to come here"]);
    }
}

/// What to do where an item of a resource has to come.
pub(crate) fn of_resource(draft: &mut Draft, spot: Spot<'_>) {
    if !of_function(draft, spot) {
        draft.say(&["a resource has functions, `name: func(..)`, and a constructor"]);
    }
}

/// What to do about a word that is no keyword where an item of a world has to come.
fn of_world_word(draft: &mut Draft, spot: Spot<'_>) {
    let word = spot.here();
    if is_item_or_extern(spot, spot.ahead(1)) && !is_function(spot, spot.ahead(1)) {
        leave_out(draft, spot);
    } else if spot.is_named(spot.at) {
        draft.say(&[
            "a world has imports and exports: write `import` or `export` before `",
            word,
            "`",
        ]);
    } else if let Some(keyword) = meant(draft, word, &OF_WORLDS) {
        draft.replace(spot, keyword);
    }
}

/// What to do where an item of a world has to come.
pub(crate) fn of_world(draft: &mut Draft, spot: Spot<'_>) {
    match spot.keyword(spot.at) {
        Some(Keyword::Func) => draft.say(&["a function is written `name: func(..)`"]),
        Some(Keyword::Interface | Keyword::World) => {
            draft.say(&["it belongs to a file: write `import` and its name here"]);
        }
        None if spot.is_name(spot.at) => of_world_word(draft, spot),
        _ => {}
    }
    if draft.is_open() {
        draft.say(&["a world has imports and exports: write `import` or `export`"]);
    }
}

/// What to do about a word that is no keyword where an interface or a world has to come.
fn of_file_word(draft: &mut Draft, spot: Spot<'_>) {
    let word = spot.here();
    if let Some(keyword) = meant(draft, word, &["interface", "world"]) {
        draft.replace(spot, keyword);
    } else if declaration(word) == Some("interface") {
        draft.replace(spot, "interface");
    } else if meant(draft, word, &OF_INTERFACES).is_some()
        || spot.is_named(spot.at)
        || begins_function(word)
        || declaration(word).is_some()
    {
        draft.say(&["put it into an interface: `interface NAME { .. }`"]);
    }
}

/// What to do where an interface or a world has to come.
pub(crate) fn of_file(draft: &mut Draft, spot: Spot<'_>) {
    let next = spot.keyword(spot.ahead(1));
    match spot.keyword(spot.at) {
        _ if spot.is_word(spot.at) && matches!(next, Some(Keyword::Interface | Keyword::World)) => {
            leave_out(draft, spot);
        }
        Some(Keyword::Import | Keyword::Export | Keyword::Include) => {
            draft.say(&["put it into a world: `world NAME { .. }`"]);
        }
        Some(_) => draft.say(&["put it into an interface: `interface NAME { .. }`"]),
        None if spot.is_name(spot.at) => of_file_word(draft, spot),
        None => of_other(draft, spot, "an interface or a world"),
    }
    if draft.is_open() {
        draft.say(&["an interface or a world has to come here"]);
    }
}
