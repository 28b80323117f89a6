//! What to do about a mark that is missing, that another one stands in place of, or that has to go.

use crate::generics::of_parameters_of_types;
use wit_findings::{Draft, Related, Spot, closing, is_function, is_item, type_end};
use wit_tokens::{Keyword, Punctuation, mark_text};
use wit_tree::NodeKind;

/// Says that a mark has to be written, and where: behind the word before, if this one begins a line.
pub(crate) fn insert(draft: &mut Draft, spot: Spot<'_>, mark: &str, text: &str) {
    let at = spot.end_before();
    draft.write(at, at, &[text]);
    if spot.begins_line() {
        draft.place(at, at);
        draft.say(&["write `", mark, "` after `", spot.before(), "`"]);
    } else {
        draft.say_before(mark, spot.here());
    }
}

/// Says that the word here stands twice, if it is the word before.
pub(crate) fn of_doubled(draft: &mut Draft, spot: Spot<'_>) -> bool {
    let is_twice = match spot.mark(spot.at) {
        Some(Punctuation::Colon) => !matches!(
            spot.within(spot.at),
            NodeKind::Use | NodeKind::Path | NodeKind::Package | NodeKind::Import | NodeKind::Export
        ),
        Some(Punctuation::Comma | Punctuation::Arrow | Punctuation::Equals) => true,
        Some(_) => false,
        None => spot.is_word(spot.at),
    };
    if !is_twice || spot.before() != spot.here() {
        return false;
    }
    draft.say(&["leave it out: `", spot.here(), "` stands twice"]);
    draft.muted = spot.line_end(spot.at);
    draft.write(spot.end_before(), spot.end(spot.at), &[]);
    true
}

/// The name of a package, in which a `:` is missing.
fn of_package(draft: &mut Draft, spot: Spot<'_>) {
    let is_joint = matches!(
        spot.mark(spot.at),
        Some(Punctuation::Slash | Punctuation::Dot)
    );
    if is_joint && spot.is_name(spot.ahead(1)) {
        let (front, back) = (spot.before(), spot.word(spot.ahead(1)));
        draft.say(&[
            "a package is `namespace:name`: write `",
            front,
            ":",
            back,
            "`",
        ]);
        draft.write(spot.start(spot.at), spot.end(spot.at), &[":"]);
    } else {
        draft.say(&["a package is `namespace:name`: write a namespace and `:` before its name"]);
    }
}

/// A field of another language, whose first word says how often it is there: this is its type.
fn of_repeated(draft: &mut Draft, spot: Spot<'_>, holder: &str) {
    let (start, next) = (spot.start(spot.at.saturating_sub(1)), spot.ahead(1));
    let (name, ty) = (spot.word(next), spot.here());
    draft.place(start, spot.end_before());
    draft.say(&["write `", name, ": ", holder, "<", ty, ">`"]);
    draft.write(start, spot.end(next), &[name, ": ", holder, "<", ty, ">"]);
    draft.muted = spot.line_end(spot.at);
}

/// A parameter or a field, in which a `:` is missing.
fn of_member(draft: &mut Draft, spot: Spot<'_>, member: &str) {
    let (name, start) = (spot.before(), spot.start(spot.at.saturating_sub(1)));
    let is_field = spot.is_word(spot.at) && spot.is_word(spot.ahead(1));
    if is_field && name == "repeated" {
        of_repeated(draft, spot, "list");
    } else if is_field && name == "optional" {
        of_repeated(draft, spot, "option");
    } else if name == "self" {
        let is_listed = spot.mark(spot.at) == Some(Punctuation::Comma);
        let end = if is_listed {
            spot.start(spot.ahead(1))
        } else {
            spot.end_before()
        };
        draft.place(start, spot.end_before());
        draft.say(&["leave out `self`: a function has no receiver"]);
        draft.write(start, end, &[]);
    } else if spot.is_named(spot.at) {
        draft.place(start, spot.end_before());
        draft.say(&["leave out `", name, "`"]);
        draft.write(start, spot.start(spot.at), &[]);
        draft.muted = spot.end(spot.ahead(1));
    } else if spot.mark(spot.at) == Some(Punctuation::Dot) {
        draft.say(&[
            "any number of values is a list: write `",
            name,
            ": list<..>`",
        ]);
    } else if spot.mark(spot.at).is_some() {
        draft.say(&["a ", member, " is `name: type`: only `", name, "` is here"]);
    }
}

/// A `:` that is missing.
fn of_colon(draft: &mut Draft, spot: Spot<'_>) {
    if let Some(Punctuation::Equals | Punctuation::Arrow) = spot.mark(spot.at) {
        draft.muted = spot.line_end(spot.at);
        return draft.replace(spot, ":");
    }
    match spot.within_before() {
        NodeKind::Package | NodeKind::NestedPackage | NodeKind::PackageName => {
            of_package(draft, spot);
        }
        NodeKind::Record => of_member(draft, spot, "field"),
        NodeKind::Parameters | NodeKind::NamedResults => of_member(draft, spot, "parameter"),
        NodeKind::Function if spot.mark(spot.at) == Some(Punctuation::OpenParenthesis) => {
            let at = spot.end_before();
            draft.say(&["a function is written `", spot.before(), ": func(..)`"]);
            draft.write(at, at, &[": func"]);
        }
        _ => {}
    }
}

/// A `=` that is missing.
fn of_equals(draft: &mut Draft, spot: Spot<'_>) {
    match spot.mark(spot.at) {
        Some(Punctuation::Colon) => draft.replace(spot, "="),
        Some(Punctuation::OpenBrace) => {
            draft.say(&["write `record` instead of `type`"]);
            let keyword = spot.at.saturating_sub(2);
            draft.write(spot.start(keyword), spot.end(keyword), &["record"]);
        }
        _ => {}
    }
}

/// A `{` that is missing.
fn of_brace(draft: &mut Draft, spot: Spot<'_>) {
    let scope = spot.within_before();
    match spot.mark(spot.at) {
        Some(Punctuation::Semicolon) if matches!(scope, NodeKind::World | NodeKind::Interface) => {
            draft.say(&["write `{ }` instead of `;`"]);
            draft.write(spot.end_before(), spot.end(spot.at), &[" { }"]);
        }
        Some(Punctuation::OpenParenthesis) => draft.say(&[
            "write `{` instead of `(`, and `}` instead of `)`",
        ]),
        Some(Punctuation::Equals) => {
            draft.say(&["leave out the `=`"]);
            draft.write(spot.end_before(), spot.end(spot.at), &[]);
        }
        Some(Punctuation::Colon) => {
            draft.say(&["nothing is inherited: leave out the `:` and what comes after it"]);
        }
        None if spot.mark(spot.ahead(2)) == Some(Punctuation::OpenBrace) => {
            draft.say(&["nothing is inherited: leave out what comes before the `{`"]);
            draft.write(spot.end_before(), spot.end(spot.ahead(1)), &[]);
        }
        None
            if scope == NodeKind::Use && spot.mark(spot.ahead(1)) == Some(Punctuation::Semicolon) =>
            {
                let name = spot.here();
                draft.say(&["used names are in braces: write `{", name, "}`"]);
                draft.write(spot.start(spot.at), spot.end(spot.at), &["{", name, "}"]);
            }
        _ => insert(draft, spot, "{", " {"),
    }
}

/// Types between `(` and `)` behind a word that holds types.
fn of_round_types(draft: &mut Draft, spot: Spot<'_>) {
    if let Some(close) = closing(spot, spot.at) {
        let types = spot.between(spot.end(spot.at), spot.start(close));
        draft.write(spot.start(spot.at), spot.end(close), &["<", types, ">"]);
    }
}

/// A type right behind a word that holds types.
fn of_bare_type(draft: &mut Draft, spot: Spot<'_>) {
    if let Some(last) = type_end(spot, spot.at) {
        let (holder, ty) = (spot.before(), spot.words(spot.at, last));
        draft.say(&["write `", holder, "<", ty, ">`"]);
        draft.write(spot.end_before(), spot.end(last), &["<", ty, ">"]);
    }
}

/// The interface that is used, from the word behind `use` on up to the word before.
fn path_before<'a>(spot: Spot<'a>) -> &'a str {
    let last = spot.at.saturating_sub(1);
    match spot.read_scope(last) {
        Some(node) if node.kind == NodeKind::Use => {
            spot.words(node.from.saturating_add(1), last)
        }
        Some(node) if node.kind == NodeKind::Path => spot.words(node.from, last),
        _ => spot.before(),
    }
}

/// A `(`, a `<` or a `.` that is missing.
fn of_opener(draft: &mut Draft, spot: Spot<'_>, mark: Punctuation) {
    let (at, before) = (spot.end_before(), spot.before());
    match (mark, spot.mark(spot.at), before) {
        (Punctuation::OpenParenthesis, found, _) if found.is_some() || spot.begins_line() => {
            draft.say(&["write `func()`: a function has parentheses also without parameters"]);
            draft.write(at, at, &["()"]);
            if spot.begins_line() {
                draft.place(at, at);
            }
        }
        (Punctuation::Less, Some(Punctuation::OpenParenthesis), _) => {
            draft.say(&["write `<` instead of `(`, and `>` instead of `)`"]);
            of_round_types(draft, spot);
        }
        (Punctuation::Less, None, _) if type_end(spot, spot.at).is_some() => {
            of_bare_type(draft, spot);
        }
        (Punctuation::Less, _, "list") => draft.say(&["a list has a type: write `list<..>`"]),
        (Punctuation::Less, _, "option") => {
            draft.say(&["an option has a type: write `option<..>`"]);
        }
        (Punctuation::Less, _, _) => draft.say(&["write `", before, "<..>`: it has types"]),
        (Punctuation::Dot, Some(Punctuation::OpenBrace), _) => insert(draft, spot, ".", "."),
        (Punctuation::Dot, _, _) => {
            draft.say(&[
                "say which types are used: `use ",
                path_before(spot),
                ".{name};`",
            ]);
        }
        _ => {}
    }
}

/// A `/` that is missing behind the package of a path.
fn of_slash(draft: &mut Draft, spot: Spot<'_>) {
    let name = spot.at.saturating_sub(1);
    let alias = spot.at.saturating_sub(3);
    let is_named = matches!(spot.word(alias.saturating_sub(1)), "import" | "export")
        && !spot.are_joined(name.saturating_sub(1));
    if is_named && spot.mark(spot.at) == Some(Punctuation::Semicolon) {
        let keyword = spot.word(alias.saturating_sub(1));
        draft.say(&[
            "write `",
            keyword,
            " ",
            spot.before(),
            ";`: it has no name of its own",
        ]);
        draft.write(spot.start(alias), spot.start(name), &[]);
    } else {
        draft.say(&[
            "write `/` and the name of an interface after `",
            spot.before(),
            "`",
        ]);
    }
}

/// A `,` or a `:` before the `)` that a case has to have.
fn of_case_end(draft: &mut Draft, spot: Spot<'_>) {
    let (name, next) = (spot.at.saturating_sub(1), spot.ahead(1));
    match spot.mark(spot.at) {
        Some(Punctuation::Comma) if spot.mark(next) == Some(Punctuation::CloseParenthesis) => {
            draft.say(&["leave it out: nothing comes between it and the `)`"]);
            draft.write(spot.start(spot.at), spot.end(spot.at), &[]);
            draft.muted = spot.end(next);
        }
        Some(Punctuation::Colon) => {
            draft.say(&[
                "a case holds a type without a name: leave out `",
                spot.before(),
                ":`",
            ]);
            draft.write(spot.start(name), spot.start(next), &[]);
        }
        _ => {}
    }
}

/// What to do about a mark that is missing.
pub(crate) fn of_missing(draft: &mut Draft, spot: Spot<'_>, mark: Punctuation) {
    if of_doubled(draft, spot) || of_parameters_of_types(draft, spot) {
        return;
    }
    match mark {
        Punctuation::Colon => of_colon(draft, spot),
        Punctuation::Equals => of_equals(draft, spot),
        Punctuation::OpenBrace => of_brace(draft, spot),
        Punctuation::OpenParenthesis | Punctuation::Less | Punctuation::Dot => {
            of_opener(draft, spot, mark);
        }
        Punctuation::Slash => of_slash(draft, spot),
        Punctuation::CloseParenthesis => of_case_end(draft, spot),
        _ => {}
    }
    if draft.is_open() {
        insert(draft, spot, mark_text(mark), mark_text(mark));
    }
}

/// What to do about a mark that stands in place of another one.
pub(crate) fn of_instead(draft: &mut Draft, spot: Spot<'_>, mark: Punctuation) {
    let found = spot.between(draft.start, draft.end);
    draft.say_instead(mark_text(mark), found);
    draft.write(draft.start, draft.end, &[mark_text(mark)]);
}

/// A function in the place of a parameter's type.
fn of_function_value(draft: &mut Draft, spot: Spot<'_>) {
    let func = spot.ahead(2);
    draft.related = None;
    draft.place(spot.start(func), spot.end(func));
    draft.say(&["a function is no value: a world imports it, or an interface has it"]);
    draft.muted = spot.line_end(func);
}

/// What to do about a mark that is not closed: this one opened it.
pub(crate) fn of_unclosed(draft: &mut Draft, spot: Spot<'_>, mark: Punctuation, opener: usize) {
    draft.related = Some(Related {
        start: spot.start(opener),
        end: spot.end(opener),
        message: "this is not closed",
    });
    let next = spot.ahead(1);
    if is_function(spot, spot.at) && !spot.begins_line() {
        of_function_value(draft, spot);
    } else if mark == Punctuation::CloseBrace {
        let text = if spot.begins_line() { "\n}" } else { " }" };
        insert(draft, spot, "}", text);
    } else if spot.mark(spot.at) == Some(Punctuation::Semicolon)
        && spot.is_named(next)
        && !is_function(spot, next)
    {
        draft.replace(spot, ",");
        draft.muted = spot.line_end(spot.at);
    } else {
        let is_item_over = spot.begins_line() && spot.mark(spot.at) != Some(Punctuation::Arrow);
        let text = if is_item_over { ");" } else { ")" };
        insert(draft, spot, text, text);
    }
}

/// The version behind the name of a package, which has to come last.
fn of_early_version(draft: &mut Draft, spot: Spot<'_>) {
    let (version, next) = (spot.here(), spot.ahead(1));
    let package = spot.words(spot.at.saturating_sub(3), spot.at.saturating_sub(1));
    if spot.mark(next) == Some(Punctuation::Slash) {
        let name = spot.word(spot.ahead(2));
        draft.say(&[
            "the version comes last: `",
            package,
            "/",
            name,
            version,
            "`",
        ]);
        draft.write(
            spot.start(spot.at),
            spot.end(spot.ahead(2)),
            &["/", name, version],
        );
    } else {
        draft.say(&["name an interface of it: `", package, "/NAME", version, "`"]);
    }
}

/// What to do about a word that has to go.
pub(crate) fn of_stray(draft: &mut Draft, spot: Spot<'_>) {
    draft.write(draft.start, draft.end, &[]);
    match spot.mark(spot.at) {
        Some(Punctuation::CloseBrace) => draft.say(&[
            "leave it out: all braces are closed before it",
        ]),
        Some(Punctuation::Comma) => draft.say(&[
            "leave it out: nothing comes between it and the `)`",
        ]),
        Some(mark) => draft.say(&["leave it out: no `", mark_text(mark), "` comes here"]),
        None if matches!(spot.within(spot.at), NodeKind::Interface | NodeKind::World) => {
            draft.say(&["versions are of packages: leave it out"]);
        }
        None if spot.is_version(spot.at) => {
            draft.unmend();
            of_early_version(draft, spot);
        }
        None => draft.say(&["leave it out"]),
    }
}

/// Whether an item of an interface or a world begins here, behind words that another language has before it.
pub(crate) fn is_item_or_extern(spot: Spot<'_>, index: usize) -> bool {
    is_item(spot, index)
        || matches!(
            spot.keyword(index),
            Some(Keyword::Import | Keyword::Export | Keyword::World | Keyword::Interface)
        )
}
