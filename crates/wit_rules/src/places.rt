//! What to do where a name, a type or a keyword has to come.

use crate::items::of_function;
use crate::missing::of_doubled;
use near_names::begins_function;
use wit_findings::{Draft, Spot, begins_type, closing, is_type, type_end};
use wit_tokens::{Keyword, Punctuation};
use wit_tree::NodeKind;
use word_rules::meant;

/// What a list or a body has.
fn thing(kind: NodeKind) -> &'static str {
    match kind {
        NodeKind::Record => "a field",
        NodeKind::Variant | NodeKind::Enum => "a case",
        NodeKind::Flags => "a label",
        NodeKind::Use => "the name of a type",
        NodeKind::Parameters => "a parameter",
        _ => "a name",
    }
}

/// What to do about a type where a name and `:` have to come first.
fn of_type_first(draft: &mut Draft, spot: Spot<'_>) {
    draft.say(&[thing(spot.within(spot.at)), " is `name: type`"]);
    let Some(last) = type_end(spot, spot.at) else {
        return;
    };
    let (ty, name) = (spot.words(spot.at, last), last.saturating_add(1));
    if spot.is_name(name) {
        let word = spot.word(name);
        draft.say(&[": write `", word, ": ", ty, "`"]);
        draft.write(spot.start(spot.at), spot.end(name), &[word, ": ", ty]);
    } else {
        draft.say(&[": write a name and `:` before `", ty, "`"]);
    }
}

/// What to do about a `::`, at the second colon: in a `use`, or in a path.
fn of_colons(draft: &mut Draft, spot: Spot<'_>) {
    let first = spot.at.saturating_sub(1);
    let (start, end) = (spot.start(first), spot.end(spot.at));
    let (interface, next) = (spot.word(first.saturating_sub(1)), spot.ahead(1));
    let is_use = spot.keyword(first.saturating_sub(2)) == Some(Keyword::Use);
    if is_use && spot.mark(next) == Some(Punctuation::OpenBrace) {
        draft.say(&["write `.` instead of `::`: `use ", interface, ".{..};`"]);
        draft.write(start, end, &["."]);
    } else if is_use && spot.mark(spot.ahead(2)) == Some(Punctuation::Semicolon) {
        let name = spot.word(next);
        draft.say(&["a use is written `use ", interface, ".{", name, "};`"]);
        draft.write(start, spot.end(next), &[".{", name, "}"]);
    } else {
        draft.say(&["a path is written `namespace:name/interface`"]);
    }
}

/// What to do about a mark, or the end, where a name has to come.
fn of_no_name(draft: &mut Draft, spot: Spot<'_>) {
    let (before, found) = (spot.before(), spot.mark(spot.at));
    let thing = thing(spot.within_before());
    match spot.mark_before() {
        Some(Punctuation::Colon) if found == Some(Punctuation::Colon) => of_colons(draft, spot),
        None if before == "use" && found == Some(Punctuation::OpenBrace) => {
            draft.say(&["a use is written `use interface.{name};`"]);
            draft.muted = spot.line_end(spot.at);
        }
        None if found == Some(Punctuation::OpenBrace) && matches!(before, "import" | "export") => {
            draft.say(&[
                "a name comes here, without braces: write `",
                before,
                " NAME;`",
            ]);
        }
        None
            if before != "type"
                && matches!(found, Some(Punctuation::Colon | Punctuation::Equals)) => {
            draft.say(&["leave out the `", spot.here(), "`"]);
            draft.write(spot.end_before(), spot.end(spot.at), &[]);
            draft.muted = spot.line_end(spot.at);
        }
        None | Some(Punctuation::Colon | Punctuation::Slash) => {
            draft.say(&["a name is missing after `", before, "`"]);
        }
        _ if found == Some(Punctuation::Dot) => {
            draft.say(&["any number of values is a list: write `name: list<..>`"]);
        }
        _ if found == Some(Punctuation::CloseBrace) => {
            draft.say(&[thing, " has to come here: there is at least one"]);
        }
        _ => draft.say(&[thing, " has to come here"]),
    }
}

/// What to do where a name has to come.
pub(crate) fn of_name(draft: &mut Draft, spot: Spot<'_>) {
    let is_path = spot.mark_before() == Some(Punctuation::Colon);
    if !is_path && of_doubled(draft, spot) {
        return;
    }
    if of_function(draft, spot) {
        return;
    }
    if let Some(keyword) = spot.keyword(spot.at) {
        let scope = spot.within(spot.at);
        if is_type(keyword) && matches!(scope, NodeKind::Record | NodeKind::Parameters) {
            return of_type_first(draft, spot);
        }
        let word = spot.here();
        draft.say(&["`", word, "` is a keyword: write `%", word, "`"]);
    } else if spot.is_number(spot.at) {
        draft.say(&["a name begins with a letter"]);
        if spot.is_name(spot.ahead(1)) && spot.are_joined(spot.at) {
            draft.say(&[": write `", spot.word(spot.ahead(1)), spot.here(), "`"]);
        }
    } else {
        of_no_name(draft, spot);
    }
}

/// What to do about a keyword that begins no type.
fn of_no_type(draft: &mut Draft, spot: Spot<'_>, keyword: Keyword) {
    let word = spot.here();
    match keyword {
        Keyword::Record | Keyword::Variant | Keyword::Enum | Keyword::Flags => {
            draft.say(&[
                "a type has to come here: declare the ",
                word,
                ", and write its name",
            ]);
        }
        Keyword::Func => {
            draft.say(&["a function is no value: a world imports it, or an interface has it"]);
        }
        _ => draft.say(&["a type has to come here, and `", word, "` begins none"]),
    }
}

/// What to do about a `(` in place of a type: it may be a tuple, or no value.
fn of_parenthesis(draft: &mut Draft, spot: Spot<'_>) {
    let Some(close) = closing(spot, spot.at) else {
        return draft.say(&["a tuple is written `tuple<..>`"]);
    };
    if close == spot.ahead(1) {
        draft.say(&["write `_` instead of `()`"]);
        return draft.write(spot.start(spot.at), spot.end(close), &["_"]);
    }
    let types = spot.words(spot.ahead(1), close.saturating_sub(1));
    draft.say(&["a tuple is written `tuple<", types, ">`"]);
    if begins_type(spot, spot.ahead(1)) {
        draft.write(
            spot.start(spot.at),
            spot.end(close),
            &["tuple<", types, ">"],
        );
    }
}

/// What to do about a `_` in place of a type: a result without a value and an error has no parts.
fn of_underscore(draft: &mut Draft, spot: Spot<'_>) {
    let open = spot.at.saturating_sub(3);
    let is_bare = spot.word(open) == "<" && spot.word(open.saturating_add(1)) == "_";
    if is_bare && spot.mark(spot.ahead(1)) == Some(Punctuation::Greater) {
        draft.say(&["write `result` alone: it has neither a value nor an error"]);
        draft.write(spot.start(open), spot.end(spot.ahead(1)), &[]);
    } else {
        draft.say(&["leave out the `_` and the `,` before it"]);
    }
}

/// What to do where a type has to come.
pub(crate) fn of_type(draft: &mut Draft, spot: Spot<'_>) {
    if of_doubled(draft, spot) {
        return;
    }
    if let Some(keyword) = spot.keyword(spot.at) {
        return of_no_type(draft, spot, keyword);
    }
    match spot.mark(spot.at) {
        Some(Punctuation::OpenParenthesis) => of_parenthesis(draft, spot),
        Some(Punctuation::OpenBrace) => draft.say(&["declare a record, and write its name"]),
        Some(Punctuation::Underscore) => of_underscore(draft, spot),
        Some(Punctuation::Comma) if spot.word(spot.at.saturating_sub(2)) == "result" => {
            draft.say(&["write `_` for no value: `result<_, ..>`"]);
        }
        _ if spot.is_number(spot.at) => draft.say(&["a type has to come here, and no number"]),
        _ => draft.say(&["a type is missing after `", spot.before(), "`"]),
    }
}

/// What to do where `func` has to come.
pub(crate) fn of_func(draft: &mut Draft, spot: Spot<'_>) {
    let (word, next) = (spot.here(), spot.ahead(1));
    if of_doubled(draft, spot) {
        return;
    }
    let is_called = spot.mark(next) == Some(Punctuation::OpenParenthesis);
    if spot.mark(spot.at) == Some(Punctuation::OpenParenthesis) {
        draft.say(&["write `func` before it"]);
        draft.write(spot.start(spot.at), spot.start(spot.at), &["func"]);
    } else if spot.keyword(next) == Some(Keyword::Func) {
        draft.say(&["leave out `", word, "`"]);
        draft.write(spot.start(spot.at), spot.start(next), &[]);
    } else if is_called && (begins_function(word) || meant(draft, word, &["func"]).is_some()) {
        draft.replace(spot, "func");
    } else if spot.mark(next) == Some(Punctuation::Semicolon) && begins_type(spot, spot.at) {
        draft.say(&[
            "an interface has no fields: write `func() -> ",
            word,
            "`, or a record",
        ]);
    } else {
        draft.say(&["a function is written `name: func(..)`"]);
    }
}

/// The package line of a text, if it has one that is not its first.
fn late_package<'a>(spot: Spot<'a>) -> Option<&'a str> {
    let nodes = spot.tree.nodes.as_slice().iter();
    let node = nodes.filter(|node| node.kind == NodeKind::Package).next()?;
    Some(spot.words(node.from, node.to.saturating_sub(1)))
}

/// What to do where the line of the package has to come.
pub(crate) fn of_package(draft: &mut Draft, spot: Spot<'_>) {
    if spot.mark(spot.ahead(1)) == Some(Punctuation::Equals) {
        draft.say(&["leave this line out: nothing is set in WIT"]);
        draft.muted = spot.line_end(spot.at);
    } else if let Some(line) = late_package(spot) {
        draft.say(&["write `", line, "` at the front of the file"]);
    } else if meant(draft, spot.here(), &["package"]).is_some() {
        draft.replace(spot, "package");
    } else {
        draft.say(&[
            "begin the file with `package NAMESPACE:NAME;`, or give it with files of one package",
        ]);
    }
}
