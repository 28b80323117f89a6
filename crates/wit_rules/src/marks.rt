//! What to do where a mark has to come, and something is there that it alone does not mend.

use crate::generics::of_parameters_of_types;
use crate::items::of_function;
use crate::missing::{insert, of_doubled};
use crate::notes::of_too_many;
use near_names::{has_three_numbers, version_front};
use wit_findings::{Draft, Spot, begins_type, closing, type_end, type_start};
use wit_tokens::{Keyword, Punctuation, mark_text};
use wit_tree::NodeKind;

/// Leaves out the word here, which closes nothing.
fn leave_out(draft: &mut Draft, spot: Spot<'_>, opener: &str) {
    draft.say(&["leave it out: no `", opener, "` is open here"]);
    draft.write(spot.start(spot.at), spot.end(spot.at), &[]);
}

/// The word behind the mark here, or behind two such marks.
fn behind_joint(spot: Spot<'_>) -> usize {
    let is_twice = spot.mark(spot.ahead(1)) == Some(Punctuation::Colon);
    spot.ahead(if is_twice { 2 } else { 1 })
}

/// A type or a package that is written as a path.
fn of_path(draft: &mut Draft, spot: Spot<'_>) {
    let next = behind_joint(spot);
    let (front, back) = (spot.before(), spot.word(next));
    match spot.within(spot.at) {
        NodeKind::Package | NodeKind::NestedPackage => {
            draft.say(&["a package is `namespace:name`, or `namespace:name@1.0.0`"]);
        }
        NodeKind::Import | NodeKind::Export | NodeKind::Use => {
            draft.say(&["a path is written `namespace:name/interface`"]);
            let is_path = spot.mark(spot.at) == Some(Punctuation::Dot)
                && spot.mark(spot.ahead(2)) == Some(Punctuation::Slash);
            if is_path {
                draft.write(spot.start(spot.at), spot.end(spot.at), &[":"]);
            }
        }
        _ if begins_type(spot, next) && !spot.is_name(next) => {
            draft.say(&[
                "a type is one name: leave out `",
                front,
                "` and write `",
                back,
                "`",
            ]);
            let first = spot.start(spot.at.saturating_sub(1));
            draft.write(first, spot.start(next), &[]);
        }
        _ => draft.say(&[
            "a type is one name: bring it in by `use ",
            front,
            ".{",
            back,
            "};`",
        ]),
    }
}

/// Dots behind a type.
fn of_dots(draft: &mut Draft, spot: Spot<'_>) {
    let is_rest = spot.mark(spot.ahead(1)) == Some(Punctuation::Dot);
    if !is_rest {
        return of_path(draft, spot);
    }
    let (start, name) = (spot.start(spot.at.saturating_sub(1)), spot.before());
    draft.say(&["any number of values is a list: write `list<", name, ">`"]);
    if spot.mark(spot.ahead(2)) == Some(Punctuation::Dot) {
        draft.write(start, spot.end(spot.ahead(2)), &["list<", name, ">"]);
    }
}

/// Writes a version in place of the `@` and the quotes behind it.
fn of_quoted_version(draft: &mut Draft, spot: Spot<'_>, bare: &str) {
    let first = spot.end(spot.at);
    let last = first.saturating_add(bare.len()).saturating_add(2);
    let quoted = spot.between(first, last);
    if quoted.starts_with('"') && quoted.ends_with('"') {
        draft.write(spot.start(spot.at), last, &["@", bare]);
        draft.muted = last;
    }
}

/// An `@` that begins no version.
fn of_at(draft: &mut Draft, spot: Spot<'_>) {
    let behind = spot.behind(spot.end(spot.at)).trim_start();
    let number = version_front(draft.hint.alloc(), behind.trim_start_matches('"'));
    let number = draft.hint.kept(number);
    let number = number.as_str();
    let bare = number.strip_prefix("v").unwrap_or(number);
    if !has_three_numbers(bare) {
        return draft.say(&["a version is three numbers, as `@1.0.0`"]);
    }
    if bare.len() < number.len() {
        draft.say(&["a version has no `v`: write `@", bare, "`"]);
        let end = spot.end(spot.at).saturating_add(number.len());
        draft.write(spot.start(spot.at), end, &["@", bare]);
    } else if spot.are_joined(spot.at) || behind.starts_with('"') {
        draft.say(&["a version has no quotes: write `@", bare, "`"]);
        of_quoted_version(draft, spot, bare);
    } else {
        draft.say(&[
            "a version comes right behind the `@`, without a space: write `@",
            bare,
            "`",
        ]);
        let first = spot.start(spot.ahead(1));
        draft.write(spot.start(spot.at), first, &["@"]);
    }
}

/// A version without its `@`.
fn of_bare_version(draft: &mut Draft, spot: Spot<'_>) {
    let first = spot.start(spot.at);
    let number = version_front(draft.hint.alloc(), spot.behind(first));
    let number = draft.hint.kept(number);
    let number = number.as_str();
    let bare = number.strip_prefix("v").unwrap_or(number);
    if has_three_numbers(bare) {
        draft.say(&["a version has an `@` before it: write `@", bare, "`"]);
        let end = first.saturating_add(number.len());
        draft.write(spot.end_before(), end, &["@", bare]);
    }
}

/// A type behind a `,` where one type alone may be.
fn of_second_type(draft: &mut Draft, spot: Spot<'_>) {
    let first = type_start(spot, spot.at.saturating_sub(1));
    let (Some(first), Some(last)) = (first, type_end(spot, spot.ahead(1))) else {
        return draft.replace(spot, ";");
    };
    let types = spot.words(first, last);
    draft.say(&[
        "one type alone comes here: write `tuple<",
        types,
        ">` for more",
    ]);
    draft.write(spot.start(first), spot.end(last), &["tuple<", types, ">"]);
}

/// A `,` where a `;` has to come.
fn of_comma_at_end(draft: &mut Draft, spot: Spot<'_>) {
    let next = spot.ahead(1);
    let is_new_item = spot.moved(next).begins_line() || spot.is_named(next);
    match spot.within(spot.at) {
        NodeKind::Import | NodeKind::Export if spot.is_word(next) && !is_new_item => {
            draft.say(&["each import and each export is one item: write its keyword again"]);
        }
        _ if begins_type(spot, next) && !is_new_item => of_second_type(draft, spot),
        _ => draft.replace(spot, ";"),
    }
}

/// A word where a `;` has to come, of an import or an export.
fn of_extern_word(draft: &mut Draft, spot: Spot<'_>) {
    let word = spot.at.saturating_sub(1);
    if spot.keyword(spot.at) == Some(Keyword::As) {
        draft.say(&["an import has no other name: leave out the `as` and the name"]);
        draft.write(spot.end_before(), spot.end(spot.ahead(1)), &[]);
    } else if spot.keyword(spot.at) == Some(Keyword::Func) {
        insert(draft, spot, ":", ":");
    } else if of_function(draft, spot.moved(word)) {
        draft.place(spot.start(word), spot.end(word));
    }
}

/// A word behind the parameters of a function, where `->`, a type or a `;` may come.
fn of_result_word(draft: &mut Draft, spot: Spot<'_>) {
    if matches!(spot.here(), "returns" | "return") {
        draft.replace(spot, "->");
    } else if spot.here() == "throws" {
        draft.say(&["a function that may fail returns a result: write `-> result<.., ..>`"]);
    } else if !spot.is_word(spot.ahead(1)) {
        insert(draft, spot, "->", " ->");
    }
}

/// What to do where a `;` has to come.
fn of_semicolon(draft: &mut Draft, spot: Spot<'_>) {
    let is_behind_parameters = spot.mark_before() == Some(Punctuation::CloseParenthesis);
    let is_extern = matches!(spot.within(spot.at), NodeKind::Import | NodeKind::Export);
    match spot.mark(spot.at) {
        Some(Punctuation::Comma) => of_comma_at_end(draft, spot),
        Some(Punctuation::Colon | Punctuation::Greater) if is_behind_parameters => {
            draft.replace(spot, "->");
        }
        Some(Punctuation::OpenParenthesis) if is_extern => {
            let at = spot.end_before();
            draft.say(&["a function is written `", spot.before(), ": func(..)`"]);
            draft.write(at, at, &[": func"]);
        }
        Some(Punctuation::OpenBrace) => {
            draft.say(&["a function has no body: write `;` in place of the braces"]);
            if let Some(close) = closing(spot, spot.at) {
                draft.write(spot.end_before(), spot.end(close), &[";"]);
            }
        }
        Some(Punctuation::Greater) => leave_out(draft, spot, "<"),
        Some(Punctuation::CloseParenthesis) => leave_out(draft, spot, "("),
        Some(Punctuation::Dot) => of_dots(draft, spot),
        Some(Punctuation::Slash | Punctuation::Colon) => of_path(draft, spot),
        Some(Punctuation::At) => of_at(draft, spot),
        None if spot.is_word(spot.at) && is_behind_parameters => of_result_word(draft, spot),
        None if is_extern => of_extern_word(draft, spot),
        None if spot.within_before() == NodeKind::PackageName => of_bare_version(draft, spot),
        _ => {}
    }
}

/// A default, or the number of a case: with what is passed over behind it.
fn of_value(draft: &mut Draft, spot: Spot<'_>) {
    draft.say(&[match spot.within(spot.at) {
        NodeKind::Enum | NodeKind::Variant | NodeKind::Flags => {
            "the order gives the numbers: leave out `=` and what comes after it"
        }
        _ => "nothing has a default: leave out `=` and what comes after it",
    }]);
    let end = spot.end(spot.last_skipped());
    let next = spot.start(spot.last_skipped().saturating_add(1));
    let rest = match spot.between(end, next).split_once('\n') {
        Some((line, _)) => line,
        None => spot.between(end, next),
    };
    let end = end.saturating_add(rest.trim_end().len());
    draft.write(spot.end_before(), end, &[]);
    draft.muted = end;
}

/// A type in `<` and `>` behind a case.
fn of_case_types(draft: &mut Draft, spot: Spot<'_>) {
    if let Some(close) = closing(spot, spot.at) {
        let (name, ty) = (
            spot.before(),
            spot.between(spot.end(spot.at), spot.start(close)),
        );
        draft.say(&["a case with a value is written `", name, "(", ty, ")`"]);
        draft.write(spot.start(spot.at), spot.end(close), &["(", ty, ")"]);
    }
}

/// A type with a case: the word before has it in parentheses.
fn of_case_type(draft: &mut Draft, spot: Spot<'_>) {
    let (name, first) = (spot.before(), spot.ahead(1));
    let last = spot.last_skipped();
    if last > spot.at && begins_type(spot, first) {
        let ty = spot.words(first, last);
        draft.say(&["a case with a value is written `", name, "(", ty, ")`"]);
        draft.write(spot.end_before(), spot.end(last), &["(", ty, ")"]);
    } else {
        draft.say(&["a case with a value is written `", name, "(type)`"]);
    }
}

/// What to do about a mark behind a case of an enum, or a label of flags.
fn of_label(draft: &mut Draft, spot: Spot<'_>, found: Punctuation) {
    match (spot.within(spot.at), found) {
        (NodeKind::Enum, Punctuation::OpenParenthesis) => {
            draft.say(&["cases of an enum hold no value: write `variant` instead of `enum`"]);
            if let Some(node) = spot.read_scope(spot.at) {
                draft.write(spot.start(node.from), spot.end(node.from), &["variant"]);
            }
        }
        (NodeKind::Enum, Punctuation::Colon) => {
            draft.say(&["cases of an enum hold no value: write `record` instead of `enum`"]);
        }
        (NodeKind::Flags, Punctuation::OpenParenthesis | Punctuation::Colon) => {
            draft.say(&["labels of flags hold no value: write `record` instead of `flags`"]);
        }
        (NodeKind::Variant, Punctuation::Colon) => of_case_type(draft, spot),
        (NodeKind::Variant, Punctuation::OpenBrace) => draft.say(&[
            "a case holds one type: declare a record, and write its name in `(` and `)`",
        ]),
        _ => {}
    }
}

/// What to do about a mark between a used name and another name.
fn of_renamed(draft: &mut Draft, spot: Spot<'_>) {
    let (name, mark) = (spot.word(spot.ahead(1)), spot.here());
    if spot.is_word(spot.ahead(1)) {
        draft.say(&[
            "write `as` instead of `",
            mark,
            "`: `",
            spot.before(),
            " as ",
            name,
            "`",
        ]);
        draft.write(spot.end_before(), spot.start(spot.ahead(1)), &[" as "]);
    }
}

/// What to do where a `,` has to come.
fn of_comma(draft: &mut Draft, spot: Spot<'_>) {
    let Some(found) = spot.mark(spot.at) else {
        return;
    };
    match (spot.within(spot.at), found) {
        (NodeKind::Variant, Punctuation::Equals) if begins_type(spot, spot.ahead(1)) => {
            of_case_type(draft, spot);
        }
        (NodeKind::Variant, Punctuation::Less) => of_case_types(draft, spot),
        (_, Punctuation::Equals) if spot.within(spot.at) != NodeKind::Use => of_value(draft, spot),
        (NodeKind::Use, Punctuation::Colon | Punctuation::Equals | Punctuation::Arrow) => {
            of_renamed(draft, spot);
        }
        (NodeKind::Enum | NodeKind::Flags | NodeKind::Variant, _) => of_label(draft, spot, found),
        (_, Punctuation::Greater) => leave_out(draft, spot, "<"),
        (_, Punctuation::Dot) => of_dots(draft, spot),
        (_, Punctuation::OpenParenthesis) => draft.say(&["types within a type are in `<` and `>`"]),
        (_, Punctuation::Colon | Punctuation::Slash) => of_path(draft, spot),
        _ => {}
    }
}

/// The parentheses of the case that a word is in.
fn parentheses_of_case(spot: Spot<'_>) -> Option<(usize, usize)> {
    let open = spot
        .read_scope(spot.at.saturating_sub(1))?
        .from
        .saturating_add(1);
    Some((open, closing(spot, open)?))
}

/// What to do where the `)` of a case has to come: it has more than one type.
fn of_case_end(draft: &mut Draft, spot: Spot<'_>) {
    match parentheses_of_case(spot) {
        Some((open, close)) => {
            let types = spot.words(open.saturating_add(1), close.saturating_sub(1));
            draft.say(&["a case holds one type: write `tuple<", types, ">` for more"]);
            draft.write(spot.end(open), spot.start(close), &["tuple<", types, ">"]);
        }
        None => draft.say(&["a case holds one type: write `tuple<..>` for more"]),
    }
}

/// A `/` in a path that has no `:` yet.
fn of_slash(draft: &mut Draft, spot: Spot<'_>) {
    draft.say(&["a path is written `namespace:name/interface`"]);
    if spot.mark(spot.ahead(2)) == Some(Punctuation::Slash) {
        draft.write(spot.start(spot.at), spot.end(spot.at), &[":"]);
        draft.muted = spot.end(spot.ahead(2));
    }
}

/// What to do where this mark has to come.
pub(crate) fn of_mark(draft: &mut Draft, spot: Spot<'_>, mark: Punctuation) {
    if of_doubled(draft, spot) {
        return;
    }
    match mark {
        Punctuation::Semicolon => of_semicolon(draft, spot),
        Punctuation::Comma => of_comma(draft, spot),
        Punctuation::Greater => of_too_many(draft, spot),
        Punctuation::CloseParenthesis => of_case_end(draft, spot),
        Punctuation::Colon if spot.is_version(spot.at) => {
            draft.say(&["an interface of this package has no version: leave it out"]);
            draft.write(spot.start(spot.at), spot.end(spot.at), &[]);
        }
        Punctuation::Colon => of_slash(draft, spot),
        _ => {}
    }
    if draft.is_open() && of_parameters_of_types(draft, spot) {
        return;
    }
    if draft.is_open() {
        draft.say_before(mark_text(mark), spot.here());
    }
}
