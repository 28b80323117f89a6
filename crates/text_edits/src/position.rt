//! Places in a text by lines and columns.
ghost use Rattle.std.specs.Prelude.{◌≡◌, ◌≢◌, ℕ, ◌+◌, ◌-◌, ◌<◌, ◌≤◌, ◌==◌, length, count_by, slice_index, take, drop};
ghost use Rattle.text_edits.specs.Positions.{IsPositionOf, BeginsLine, begins_character, begins_pair};

/// A place between characters of a text: the lines before its own, and how much of its own line is before it, in bytes,
/// in characters and in units of UTF-16. All are counted from 0. A line ends with a line feed.
#[derive(Clone, Copy, PartialEq, Eq)]
pub struct Position {
    pub line: usize,
    pub bytes: usize,
    pub characters: usize,
    pub units: usize,
}

/// Whether a byte of UTF-8 begins a character.
fn begins_character(byte: u8) -> bool
    ensures { result ≡ begins_character byte }
{
    byte < 128 || byte >= 192
}

/// Whether a byte of UTF-8 begins a character of two units of UTF-16.
fn begins_pair(byte: u8) -> bool
    ensures { result ≡ begins_pair byte }
{
    byte >= 240
}

/// Where the last line of a text's front begins.
fn line_start(front: &[u8]) -> usize
    ensures { BeginsLine front.now result }
{
    let mut start = 0;
    for (at, byte) in front.iter().enumerate() {
        if *byte == b'\n' {
            start = at + 1;
        }
    }
    start
}

/// How many characters begin in these bytes.
fn characters_in(bytes: &[u8]) -> usize
    ensures { result ≡ count_by begins_character bytes.now }
{
    bytes.iter().filter(|byte| begins_character(**byte)).count()
}

/// How many characters of two units of UTF-16 begin in these bytes.
fn pairs_in(bytes: &[u8]) -> usize
    ensures { result ≡ count_by begins_pair bytes.now }
{
    bytes.iter().filter(|byte| begins_pair(**byte)).count()
}

/// How many lines end in these bytes.
fn lines_in(bytes: &[u8]) -> usize
    ensures { result ≡ count_by (λ byte. byte == 10) bytes.now }
{
    bytes.iter().filter(|byte| **byte == b'\n').count()
}

/// A byte of a text by its line and its columns. It reads the text up to there.
pub fn position_of(text: &str, at: usize) -> Position
    requires { at ≤ length text.now }
    ensures { IsPositionOf (take at text.now) result }
{
    let front = &text.as_bytes()[..at];
    let start = line_start(front);
    let column = &front[start..];
    let characters = characters_in(column);
    Position {
        line: lines_in(front),
        bytes: column.len(),
        characters,
        units: characters.saturating_add(pairs_in(column)),
    }
}
