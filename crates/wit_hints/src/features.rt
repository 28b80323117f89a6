//! What to write in place of what is valid and not read.

use crate::types::of_too_many;
use text_builder::TextBuilder;
use wit_places::{Spot, word_at};
use wit_text::{Feature, TokenKind};

/// What to do about a float.
pub static NO_FLOATS: &str = "give another type: floats are not read here";

/// What a hint begins with that says what to write in place of what is valid.
static IN_PLACE: &str = "valid WIT, but not read here: for a check, ";

/// The handle of a resource, or its declaration.
fn of_resource(text: &mut TextBuilder, spot: &Spot<'_>) {
    let word = spot.word();
    let next = spot.index.saturating_add(1);
    if word == "resource" {
        let name = word_at(spot.lexed, next);
        text.push(IN_PLACE);
        text.push_three("write `type ", name, " = u32;` in its place");
    } else {
        let name = word_at(spot.lexed, next.saturating_add(1));
        text.push_three(IN_PLACE, "write `u32` instead of `", word);
        text.push_three("<", name, ">`");
    }
}

/// Results in parentheses.
fn of_results(spot: &Spot<'_>) -> &'static str {
    if word_at(spot.lexed, spot.index.saturating_add(1)) == ")" {
        return "a function without a result has no `->`: leave out `-> ()`";
    }
    "return a record or a tuple"
}

/// What to write for a check.
fn in_place(feature: Feature) -> &'static str {
    match feature {
        Feature::Stream => "write `list<..>` instead of `stream<..>`",
        Feature::Future => "leave out `future`, and write what is in its brackets",
        Feature::Map => "write `list<tuple<..>>` instead of `map<..>`",
        Feature::ErrorContext => "write `string` in its place",
        Feature::Async => "leave it out",
        Feature::Gate => "leave out the `@`, its word and its parentheses",
        Feature::TopLevelUse => "write it in each interface that needs it",
        Feature::Include => "write what that world imports and exports",
        Feature::WorldUse => "leave it out, and move what needs it into an interface",
        Feature::WorldType => "move it into an interface",
        Feature::NestedPackage => "give each package a file of its own",
        Feature::InlineInterface => "declare the interface before the world, and write its name",
        _ => "leave it out",
    }
}

/// What to write in place of a feature that is not read: for a float, the whole number that has as many bytes. A list
/// of fixed length may be one of several types.
pub fn of_feature(text: &mut TextBuilder, spot: &Spot<'_>, feature: Feature) {
    match feature {
        Feature::Float => {
            let word = spot.word();
            let number = if word == "f32" { "u32" } else { "u64" };
            text.push_three(IN_PLACE, "write `", number);
            text.push_three("` instead of `", word, "`");
        }
        Feature::Resource => of_resource(text, spot),
        Feature::FixedLengthList => match spot.lexed.tokens.get(spot.index.saturating_add(1)) {
            Some(token) if token.kind == TokenKind::Integer => {
                text.push(IN_PLACE);
                text.push("leave out the length");
            }
            _ => of_too_many(text, spot),
        },
        Feature::NamedResults => text.push(of_results(spot)),
        _ => {
            text.push(IN_PLACE);
            text.push(in_place(feature));
        }
    }
}
