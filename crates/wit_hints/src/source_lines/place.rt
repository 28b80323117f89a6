//! Where a byte offset stands in a text.

ghost use Rattle.std.specs.Prelude.{◌≡◌, ◌==◌, ◌+◌, ◌≤◌, ◌↔◌, IfSome, IsSome, length, take, drop};
ghost use Rattle.std.specs.List.{count_by};
ghost use Rattle.std.specs.Str.{IsCharBoundary, chars};
ghost use Rattle.wit_hints.specs.Lines.{EndsInLine, BeginsInLine};

/// Where a byte offset stands.
#[derive(Clone, Copy)]
pub struct Place<'a> {
    /// The number of its line, from 1 on.
    pub line: usize,
    /// Its column, from 1 on, in characters: a tab is one, and so is a wide character.
    pub column: usize,
    /// What its line has before it.
    pub before: &'a str,
    /// What its line has from it on, without the line end.
    pub behind: &'a str,
}

/// How many line ends a text has.
fn line_ends(text: &str) -> usize
    ensures count { result ≡ count_by (λ b. b == 10) text.now }
    ensures bound { result ≤ length text.now }
{
    text.as_bytes()
        .iter()
        .filter(|byte| **byte == b'\n')
        .count()
}

/// How many characters a text has.
fn characters(text: &str) -> usize
    ensures count { result ≡ length (chars text.now) }
    ensures bound { result ≤ length text.now }
{
    text.chars().count()
}

/// What a text has behind its last line end, or the text where it has none.
fn last_line(text: &str) -> &str
    ensures { EndsInLine text.now result.now }
{
    match text.rsplit_once('\n') {
        Some((_, line)) => line,
        None => text,
    }
}

/// What a text has before its first line end, or the text where it has none.
fn first_line(text: &str) -> &str
    ensures { BeginsInLine text.now result.now }
{
    match text.split_once('\n') {
        Some((line, _)) => line,
        None => text,
    }
}

/// Where a byte offset stands in a text. None where no character begins there and the text does not end there.
pub fn place_at(text: &str, at: usize) -> Option<Place<'_>>
    ensures some { IsSome result ↔ IsCharBoundary text.now at }
    ensures line { IfSome result (λ p. p.line ≡ 1 + count_by (λ b. b == 10) (take at text.now)) }
    ensures column { IfSome result (λ p. p.column ≡ 1 + length (chars p.before.now)) }
    ensures before { IfSome result (λ p. EndsInLine (take at text.now) p.before.now) }
    ensures behind { IfSome result (λ p. BeginsInLine (drop at text.now) p.behind.now) }
{
    let (front, back) = text.split_at_checked(at)?;
    let before = last_line(front);
    let lines = line_ends(front);
    let columns = characters(before);
    Some(Place {
        line: 1 + lines,
        column: 1 + columns,
        before,
        behind: first_line(back),
    })
}
