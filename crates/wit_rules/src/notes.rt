//! What to write in place of what is valid and not read.

use wit_findings::{Draft, Spot, begins_type, closing};
use wit_tokens::{Feature, Punctuation};

/// What a hint begins with that says what to write in place of what is valid.
static IN_PLACE: &str = "valid WIT, but not read here: for a check, ";

/// The handle of a resource, or its declaration.
fn of_resource(draft: &mut Draft, spot: Spot<'_>) {
    let word = spot.here();
    if word == "resource" {
        let name = spot.word(spot.ahead(1));
        draft.say(&[IN_PLACE, "write `type ", name, " = u32;` in its place"]);
    } else {
        let handle = match closing(spot, spot.ahead(1)) {
            Some(close) => spot.words(spot.at, close),
            None => word,
        };
        draft.say(&[IN_PLACE, "write `u32` instead of `", handle, "`"]);
    }
}

/// The types between parentheses, if there is no name among them.
fn types_in<'a>(spot: Spot<'a>) -> Option<&'a str> {
    let close = closing(spot, spot.at)?;
    for index in spot.ahead(1)..close {
        if spot.mark(index) == Some(Punctuation::Colon) {
            return None;
        }
    }
    let last = close.checked_sub(1)?;
    (last > spot.at && begins_type(spot, spot.ahead(1))).then_some(spot.words(spot.ahead(1), last))
}

/// Results in parentheses.
fn of_results(draft: &mut Draft, spot: Spot<'_>) {
    if spot.mark(spot.ahead(1)) == Some(Punctuation::CloseParenthesis) {
        draft.say(&["a function without a result has no `->`: leave out `-> ()`"]);
        let arrow = spot.at.saturating_sub(1);
        let start = spot.end(arrow.saturating_sub(1));
        return draft.write(start, spot.end(spot.ahead(1)), &[]);
    }
    match (types_in(spot), closing(spot, spot.at)) {
        (Some(types), Some(close)) => {
            draft.say(&["a tuple is written `tuple<", types, ">`"]);
            draft.write(
                spot.start(spot.at),
                spot.end(close),
                &["tuple<", types, ">"],
            );
            draft.muted = spot.end(close);
        }
        _ => draft.say(&["return a record or a tuple"]),
    }
}

/// What to write for a check.
fn in_place(feature: Feature) -> &'static str {
    match feature {
        Feature::Stream => "write `list<..>` instead of `stream<..>`",
        Feature::Future => "leave out `future`, and write what is in its brackets",
        Feature::Map => "write `list<tuple<..>>` instead of `map<..>`",
        Feature::ErrorContext => "write `string` in its place",
        Feature::Async => "leave it out",
        Feature::Gate => "leave out the `@`, its word and its parentheses",
        Feature::TopLevelUse => "write it in each interface that needs it",
        Feature::Include => "write what that world imports and exports",
        Feature::WorldUse => "leave it out, and move what needs it into an interface",
        Feature::WorldType => "move it into an interface",
        Feature::NestedPackage => "give each package a file of its own",
        Feature::InlineInterface => "declare the interface before the world, and write its name",
        _ => "leave it out",
    }
}

/// Whether a package is named here by a line, which has no braces.
fn is_line(spot: Spot<'_>) -> bool {
    for count in 0..8 {
        match spot.mark(spot.ahead(count)) {
            Some(Punctuation::Semicolon) => return true,
            Some(Punctuation::OpenBrace) => return false,
            _ => {}
        }
    }
    false
}

/// What a list or a result has too much of, at the `,` before it.
pub(crate) fn of_too_many(draft: &mut Draft, spot: Spot<'_>) {
    let word = match spot.read_scope(spot.at) {
        Some(node) => spot.word(node.from),
        None => "",
    };
    match word {
        "list" => draft.say(&["a list has one type: for two write `list<tuple<..>>`"]),
        "option" => draft.say(&["an option has one type: for two write `option<tuple<..>>`"]),
        "result" => draft.say(&[
            "a result has at most two types, its value and its error: put more into a `tuple`",
        ]),
        _ => {}
    }
}

/// What to write in place of a feature that is not read: for a float, the whole number that has as many bytes. A list
/// of fixed length may be one of several types.
pub(crate) fn of_feature(draft: &mut Draft, spot: Spot<'_>, feature: Feature) {
    match feature {
        Feature::Float => {
            let word = spot.here();
            let number = if word == "f32" { "u32" } else { "u64" };
            draft.say(&[IN_PLACE, "write `", number, "` instead of `", word, "`"]);
        }
        Feature::Resource => of_resource(draft, spot),
        Feature::FixedLengthList if spot.is_number(spot.ahead(1)) => {
            draft.say(&[IN_PLACE, "leave out the length"]);
        }
        Feature::FixedLengthList => of_too_many(draft, spot),
        Feature::NamedResults => of_results(draft, spot),
        Feature::NestedPackage if is_line(spot) => {
            draft.say(&["leave this line out: a file has one package"]);
        }
        _ => draft.say(&[IN_PLACE, in_place(feature)]),
    }
}
