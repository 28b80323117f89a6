//! What to do about a version that is not where it may be, or is none.

use near_names::{has_three_numbers, version_front};
use text_builder::TextBuilder;
use wit_places::{Spot, mark_at, word_at};
use wit_text::Punctuation;

/// What to do about an `@` that begins no version.
pub fn of_at(text: &mut TextBuilder, spot: &Spot<'_>) {
    let behind = spot.lexed.text.get(spot.span.end..).unwrap_or("");
    let number = version_front(text.alloc(), behind);
    let number = text.kept(number);
    match number.as_str().strip_prefix("v") {
        Some(number) if has_three_numbers(number) => {
            text.push_three("a version has no `v`: write `@", number, "`");
        }
        _ => text.push("a version is three numbers, as `@1.0.0`"),
    }
}

/// What to do about a version after an interface or a world that is declared.
fn of_declared(text: &mut TextBuilder, spot: &Spot<'_>) {
    text.push("versions are of packages: leave it out");
    match spot.lexed.own_package() {
        Some(own) if own.package.version.is_none() => {
            text.push_three(", and write `package ", own.package.namespace, ":");
            text.push_three(own.package.name, spot.word(), ";`");
        }
        _ => {
            text.push(" of the ");
            text.push(word_at(spot.lexed, spot.before.saturating_sub(1)));
        }
    }
}

/// What to do about a version in the place of a mark. No text if it may be right there.
pub fn of_version(text: &mut TextBuilder, spot: &Spot<'_>, mark: Punctuation) {
    let package = match (
        spot.lexed.span_at(spot.before.saturating_sub(2)),
        spot.lexed.span_at(spot.before),
    ) {
        (Some(first), Some(last)) => spot.lexed.text.get(first.start..last.end).unwrap_or(""),
        _ => "",
    };
    let (version, next) = (spot.word(), spot.index.saturating_add(1));
    match (mark, mark_at(spot.lexed, next)) {
        (Punctuation::Slash, Some(Punctuation::Slash)) => {
            let name = word_at(spot.lexed, next.saturating_add(1));
            text.push_three("the version comes last: `", package, "/");
            text.push_three(name, version, "`");
        }
        (Punctuation::Slash, _) => {
            text.push_three("name an interface of it: `", package, "/NAME");
            text.push(version);
            text.push("`");
        }
        (Punctuation::OpenBrace, _) => of_declared(text, spot),
        (Punctuation::Colon, _) => {
            text.push("an interface of this package has no version: leave it out");
        }
        _ => {}
    }
}
