//! Labels: the names of packages, interfaces, types, functions and their parts.
ghost use Rattle.std.specs.Prelude.{◌≡◌, ◌≤◌, ◌⊎◌, List, ℕ, length, take, IfOk, IfErr, false};
ghost use Rattle.atoms.specs.Label.{IsLabel, is_label, are_words};
ghost use Rattle.atoms.specs.Lower.{behind_lower};
ghost use Rattle.atoms.specs.declared.error.AtomError.TheVariants as error;

use crate::error::AtomError;
use std::alloc::{AllocError, Global};
use std::marker::Model;

/// Where a test of a label stands: before a word, or in one.
#[derive(Clone, Copy, Debug)]
pub enum Place {
    Start,
    Lower,
    Upper,
}

/// What stands behind the lower-case letters in front: most of a word, and so told by one test a byte.
fn behind_lower(text: &[u8]) -> &[u8]
    ensures { result.now ≡ behind_lower text.now }
{
    let mut rest = text;
    while let [byte, after @ ..] = rest {
        if !byte.is_ascii_lowercase() {
            return rest;
        }
        rest = after;
    }
    rest
}

/// Whether the bytes are words joined by single hyphens, by one way over them.
#[tactic(auto, using(crate::proofs::LabelsInOnePass::behind_lower_le))]
fn is_words(text: &[u8]) -> bool
    ensures { result ≡ are_words text.now }
{
    let mut rest = text;
    let mut place = Place::Start;
    while let [byte, after @ ..] = rest {
        let next = match place {
            Place::Start if byte.is_ascii_lowercase() => {
                rest = behind_lower(after);
                place = Place::Lower;
                continue;
            }
            Place::Start if byte.is_ascii_uppercase() => Place::Upper,
            Place::Lower if byte.is_ascii_lowercase() || byte.is_ascii_digit() => Place::Lower,
            Place::Upper if byte.is_ascii_uppercase() || byte.is_ascii_digit() => Place::Upper,
            Place::Lower | Place::Upper if *byte == b'-' => Place::Start,
            _ => return false,
        };
        place = next;
        rest = after;
    }
    !matches!(place, Place::Start)
}

/// Whether the bytes are a label.
pub fn is_label(text: &[u8]) -> bool
    ensures { result ≡ is_label text.now }
{
    text.len() <= 255 && is_words(text)
}

/// The bytes that a label holds in itself.
const MOST_INLINE: usize = 22;

/// At most 22 bytes.
#[derive(Clone, Copy, Debug)]
struct InlineBytes {
    bytes: [u8; MOST_INLINE],
    len: u8,
    ghost fits: { len ≤ 22 },
}

impl InlineBytes {
    /// These bytes.
    fn of(bytes: &[u8]) -> InlineBytes
        requires { length bytes.now ≤ 22 }
        ensures { take result.len result.bytes ≡ bytes.now }
    {
        let mut room = [0; MOST_INLINE];
        room[..bytes.len()].copy_from_slice(bytes);
        InlineBytes {
            bytes: room,
            len: bytes.len() as u8,
        }
    }

    fn as_slice(&self) -> &[u8]
        ensures { result.now ≡ take self.now.len self.now.bytes }
    {
        &self.bytes[..usize::from(self.len)]
    }
}

/// The bytes of a label. Most are short: these need no memory of their own, and 24 bytes in all.
#[derive(Debug, Drop)]
enum Bytes {
    Inline(InlineBytes),
    Heap(Box<Vec<u8>>),
}

/// A name: 1 to 255 bytes, words joined by single hyphens, each a letter followed by letters of the same case
/// and digits.
#[derive(Debug, Drop)]
pub struct Label {
    bytes: Bytes,
}

impl Model for Label {
    ghost use Rattle.std.specs.Prelude.{List, ℕ};
    ghost use Rattle.atoms.specs.Label.{IsLabel};
    ghost use Rattle.atoms.specs.LabelBytes.{kept_bytes};

    ghost Value = { List ℕ };

    ghost view = { λ l. kept_bytes l.bytes };

    ghost invariant = { λ l. IsLabel (kept_bytes l.bytes) };
}

impl Label {
    /// The label of this text. 3 `BadLabel` exactly where it is no label.
    pub fn new(alloc: Global, text: &str) -> Result<Label, AtomError>
        ensures ok { IfOk result (λ l. (l ≡ text.now) × IsLabel text.now) }
        ensures err { IfErr result (λ e. (e ≡ error.NoMemory) ⊎ ((e ≡ error.BadLabel) × (is_label text.now ≡ false))) }
    {
        let bytes = text.as_bytes();
        if !is_label(bytes) {
            return Err(AtomError::BadLabel);
        }
        Ok(Label::from_bytes(alloc, bytes)?)
    }

    /// The label of these bytes.
    pub fn from_bytes(alloc: Global, bytes: &[u8]) -> Result<Label, AllocError>
        requires { IsLabel bytes.now }
        ensures { IfOk result (λ l. l ≡ bytes.now) }
    {
        if bytes.len() <= MOST_INLINE {
            let inline = InlineBytes::of(bytes);
            return Ok(Label {
                bytes: Bytes::Inline(inline),
            });
        }
        let bytes = Box::new(alloc, Vec::from_slice(alloc, bytes)?)?;
        Ok(Label {
            bytes: Bytes::Heap(bytes),
        })
    }

    /// The label's bytes, which are ASCII.
    pub fn as_bytes(&self) -> &[u8]
        ensures is { result.now ≡ self.now }
        ensures label { IsLabel self.now }
    {
        match &self.bytes {
            Bytes::Inline(inline) => inline.as_slice(),
            Bytes::Heap(bytes) => bytes.as_slice(),
        }
    }

    /// The label's text.
    pub fn as_str(&self) -> &str
        ensures is { result.now ≡ self.now }
        ensures label { IsLabel self.now }
    {
        unsafe { std::str::from_utf8_unchecked(self.as_bytes()) }
    }

    /// The same label.
    pub fn copy(&self, alloc: Global) -> Result<Label, AllocError>
        ensures { IfOk result (λ l. l ≡ self.now) }
    {
        match &self.bytes {
            Bytes::Inline(inline) => Ok(Label {
                bytes: Bytes::Inline(*inline),
            }),
            Bytes::Heap(bytes) => Label::from_bytes(alloc, bytes.as_slice()),
        }
    }
}
