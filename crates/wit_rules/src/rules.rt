//! What to do about a fault, by what it is.

use crate::items::{of_file, of_interface, of_resource, of_world};
use crate::marks::of_mark;
use crate::missing::{of_instead, of_missing, of_stray, of_unclosed};
use crate::notes::{of_feature, of_too_many};
use crate::places::{of_func, of_name, of_package, of_type};
use wit_findings::{Draft, Spot, push_headline};
use wit_tokens::{Feature, Keyword, Punctuation};
use wit_tree::{NodeKind, Problem, Told, Wanted};
use word_rules::{of_bad_word, of_character, of_holder, of_package_name};

/// What is left in a text where two versions of it were not merged.
static LEFT_OF_MERGE: [&str; 3] = ["<<<<<<<", "=======", ">>>>>>>"];

/// What to do about what is left of a merge. Whether it is there.
fn of_merge(draft: &mut Draft, spot: Spot<'_>) -> bool {
    let behind = spot.behind(spot.start(spot.at));
    for left in &LEFT_OF_MERGE {
        if behind.starts_with(*left) {
            draft.say(&["this line is left of a merge: keep one side, and leave out such lines"]);
            return true;
        }
    }
    false
}

/// What to do where something else has to come.
fn of_expected(draft: &mut Draft, spot: Spot<'_>, wanted: Wanted) {
    if of_merge(draft, spot) {
        return;
    }
    match wanted {
        Wanted::InterfaceItem | Wanted::WorldItem | Wanted::ResourceItem
            if spot.here().is_empty() => {
            let at = spot.end_before();
            draft.say(&["write `}` at the end: what `{` opened is not closed"]);
            draft.write(at, at, &["\n}"]);
        }
        Wanted::FileItem => of_file(draft, spot),
        Wanted::InterfaceItem => of_interface(draft, spot),
        Wanted::WorldItem => of_world(draft, spot),
        Wanted::ResourceItem => of_resource(draft, spot),
        Wanted::Name => of_name(draft, spot),
        Wanted::Type => of_type(draft, spot),
        Wanted::Mark(mark) => of_mark(draft, spot, mark),
        Wanted::Keyword(Keyword::Func) => of_func(draft, spot),
        Wanted::Keyword(Keyword::Package) => of_package(draft, spot),
        Wanted::Keyword(_) => draft.say_before("as", spot.here()),
        Wanted::Number => {
            let at = spot.at.saturating_sub(1);
            draft.place(spot.start(at), spot.end(at));
            of_too_many(draft, spot.moved(at));
        }
        Wanted::Version => draft.say(&["a version is three numbers, as `@1.0.0`"]),
        Wanted::Extern => draft.say(&["an import has a function, or the name of an interface"]),
        Wanted::Gate => draft.say(&["write `since`, `unstable` or `deprecated` behind the `@`"]),
    }
}

/// What to do about a version that is none: one or two numbers lack the others.
fn of_bad_version(draft: &mut Draft, spot: Spot<'_>) {
    let version = spot.between(draft.start, draft.end);
    let lacking = match version.split_once('.') {
        None => ".0.0",
        Some((_, behind)) if !behind.contains('.') => ".0",
        Some(_) => "",
    };
    if lacking.is_empty() {
        return draft.say(&["a version is three numbers without a leading zero, as `@1.0.0`"]);
    }
    draft.say(&["a version is three numbers: write `", version]);
    draft.say(&[lacking, "`"]);
}

/// What to do about a fault.
fn say(draft: &mut Draft, spot: Spot<'_>, problem: Problem) {
    match problem {
        Problem::Expected(wanted) => of_expected(draft, spot, wanted),
        Problem::Missing(mark) => of_missing(draft, spot, mark),
        Problem::Stray => of_stray(draft, spot),
        Problem::Instead(mark) => of_instead(draft, spot, mark),
        Problem::Unclosed(mark, opener) => of_unclosed(draft, spot, mark, opener),
        Problem::NoParts => of_holder(draft, spot),
        Problem::KeywordAsName => {
            draft.say(&[
                "`",
                spot.here(),
                "` is a keyword: write `%",
                spot.here(),
                "`",
            ]);
            draft.write(draft.start, draft.end, &["%", spot.here()]);
        }
        Problem::BadWord | Problem::SnakeCase => of_bad_word(draft, spot),
        Problem::BadCharacter => of_character(draft, spot),
        Problem::OpenComment => draft.say(&["close it with `*/`; comments nest"]),
        Problem::Deep => {
            draft.say(&["give a part of the type a name"]);
            draft.muted = spot.line_end(spot.at);
        }
        Problem::BadVersion => of_bad_version(draft, spot),
        Problem::PackageLetters => of_package_name(draft, spot),
        Problem::Outside(feature) => of_feature(draft, spot, feature),
    }
}

/// Whether a fault is told by another one: that no package is in the front of the file, or that a list has one type.
fn is_told_elsewhere(spot: Spot<'_>, problem: Problem, is_first: bool) -> bool {
    match problem {
        Problem::Outside(Feature::NestedPackage) if is_first => false,
        Problem::Outside(Feature::NestedPackage) => match spot.scope(spot.at) {
            Some(node) => node.kind == NodeKind::PackageName || node.kind == NodeKind::Package,
            None => false,
        },
        Problem::Missing(Punctuation::Semicolon) => {
            spot.within_before() == NodeKind::Alias
                && spot.mark_before() == Some(Punctuation::CloseBrace)
        }
        Problem::Expected(Wanted::InterfaceItem | Wanted::WorldItem | Wanted::FileItem) => {
            let behind = spot.behind(spot.end(spot.at)).chars().next();
            behind.is_some_and(|character| !character.is_ascii())
        }
        Problem::Outside(Feature::FixedLengthList) => !spot.is_number(spot.ahead(1)),
        _ => false,
    }
}

/// What is said of a fault, the first one of its text or not, if no other one tells it.
pub(crate) fn draft_of(
    spot: Spot<'_>,
    told: &Told,
    mut draft: Draft,
    is_first: bool,
) -> Option<Draft> {
    if is_told_elsewhere(spot, told.problem, is_first) {
        return None;
    }
    // a word that is none of WIT is 30, whatever else is wrong with it
    if spot.is_bad() && spot.start(spot.at) == told.start {
        draft.number = 30;
    }
    push_headline(&mut draft, spot, told.problem);
    say(&mut draft, spot, told.problem);
    Some(draft)
}
