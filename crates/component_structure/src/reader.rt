//! Bytes read from left to right: numbers, names and sized parts. (Binary.md)
ghost use Rattle.std.specs.Prelude.{◌≡◌, ◌-◌, ◌≤◌, length, ◌==◌, IfOk, MatchOption, true, false};
ghost use Rattle.std.specs.Str.{is_utf8};
ghost use Rattle.atoms.specs.Production.{next, at_end};
ghost use Rattle.ctype_format.specs.Names.{is_full_name};
ghost use Rattle.component_structure.specs.Bytes.{Answers, at, byte, zero_byte, flag, several, number_from, u32, s33};
ghost use Rattle.component_structure.specs.Bytes.{sized, name, label, mark_of, judged, name_fault, extern_name};
ghost use Rattle.component_structure.specs.Bytes.{Full, extern_view};

use crate::error::{DecodeError, Fault, Feature};
use atoms::{AtomError, FullName, Label, is_label, read_s33, read_u32};
use ctype_format::ExternName;
use std::alloc::{AllocError, Global};

/// What is left of a part of the bytes.
#[derive(Clone, Copy)]
pub struct Reader<'a> {
    rest: &'a [u8],
    /// Where the part ends in the whole.
    end: usize,
}

/// What is wrong with a text that is neither a label nor a full name.
fn name_fault(text: &str) -> Fault
    ensures { result ≡ name_fault text.now }
{
    match text.as_bytes() {
        [b'[', ..] => Fault::Outside(Feature::Resource),
        _ => Fault::BadName,
    }
}

/// The text that bytes are, if they are UTF-8.
fn text_of(bytes: &[u8]) -> Option<&str>
    ensures { MatchOption result (is_utf8 bytes.now ≡ false)
        (λ text. (is_utf8 bytes.now ≡ true) × (text.now ≡ bytes.now)) }
{
    match std::str::from_utf8(bytes) {
        Ok(text) => Some(text),
        Err(_) => None,
    }
}

impl<'a> Reader<'a> {
    /// All of these bytes.
    pub fn new(bytes: &'a [u8]) -> Reader<'a>
        ensures rest { result.rest.now ≡ bytes.now }
        ensures end { result.end ≡ length bytes.now }
    {
        Reader {
            rest: bytes,
            end: bytes.len(),
        }
    }

    pub fn rest(&self) -> &'a [u8]
        ensures { result.now ≡ self.now.rest.now }
    {
        self.rest
    }

    pub fn is_empty(&self) -> bool
        ensures { result ≡ (length self.now.rest.now == 0) }
    {
        self.rest.is_empty()
    }

    /// The offset of the next byte in the whole.
    pub fn place(&self) -> usize
        ensures { result ≡ self.now.end - length self.now.rest.now }
    {
        self.end.saturating_sub(self.rest.len())
    }

    /// A fault at the next byte.
    pub fn fault(&self, fault: Fault) -> DecodeError
        ensures { result ≡ at self.now.end fault self.now.rest.now }
    {
        DecodeError::At(fault, self.place())
    }

    /// The next byte, which is not taken.
    pub fn peek(&self) -> Option<u8>
        ensures { result ≡ next self.now.rest.now }
    {
        self.rest.first().copied()
    }

    /// The next byte.
    pub fn byte(&mut self) -> Result<u8, DecodeError>
        ensures reads { Answers (λ x. (x, self.new.rest.now)) result ((byte self.old.end).read self.old.rest.now) }
        ensures whole { self.new.end ≡ self.old.end }
    {
        match self.rest {
            [] => Err(self.fault(Fault::Truncated)),
            [first, rest @ ..] => {
                self.rest = rest;
                Ok(*first)
            }
        }
    }

    /// A byte that is 0.
    pub fn zero(&mut self) -> Result<(), DecodeError>
        ensures reads { Answers (λ _. (0, self.new.rest.now)) result
            ((zero_byte self.old.end).read self.old.rest.now) }
        ensures whole { self.new.end ≡ self.old.end }
    {
        let place = self.place();
        match self.byte()? {
            0 => Ok(()),
            byte => Err(DecodeError::At(Fault::UnknownByte(byte), place)),
        }
    }

    /// A byte that is 0 or 1: whether it is 1.
    pub fn flag(&mut self) -> Result<bool, DecodeError>
        ensures reads { Answers (λ x. (x, self.new.rest.now)) result ((flag self.old.end).read self.old.rest.now) }
        ensures whole { self.new.end ≡ self.old.end }
    {
        let place = self.place();
        match self.byte()? {
            0 => Ok(false),
            1 => Ok(true),
            byte => Err(DecodeError::At(Fault::UnknownByte(byte), place)),
        }
    }

    /// So many bytes.
    pub fn bytes(&mut self, count: usize) -> Result<&'a [u8], DecodeError>
        ensures reads { Answers (λ x. (x.now, self.new.rest.now)) result
            ((several self.old.end count).read self.old.rest.now) }
        ensures whole { self.new.end ≡ self.old.end }
    {
        if count > self.rest.len() {
            return Err(DecodeError::At(Fault::Truncated, self.end));
        }
        let (front, rest) = self.rest.split_at(count);
        self.rest = rest;
        Ok(front)
    }

    /// What a number of the format is that was read at the front, with its count of bytes.
    fn taken(&mut self, read: Result<(u32, usize), AtomError>) -> Result<u32, DecodeError>
        requires { IfOk read (λ x. x.1 ≤ length self.old.rest.now) }
        ensures reads { Answers (λ x. (x, self.new.rest.now)) result
            (number_from self.old.end self.old.rest.now read) }
        ensures whole { self.new.end ≡ self.old.end }
    {
        match read {
            Ok((value, used)) => {
                self.bytes(used)?;
                Ok(value)
            }
            Err(AtomError::Overlong) => Err(self.fault(Fault::Overlong)),
            Err(_) => Err(DecodeError::At(Fault::Truncated, self.end)),
        }
    }

    /// An unsigned number: a count, a size, or an index.
    pub fn number(&mut self) -> Result<u32, DecodeError>
        ensures reads { Answers (λ x. (x, self.new.rest.now)) result ((u32 self.old.end).read self.old.rest.now) }
        ensures whole { self.new.end ≡ self.old.end }
    {
        self.taken(read_u32(self.rest))
    }

    /// A signed number that is not negative: an index in the place of a type of values.
    pub fn signed_index(&mut self) -> Result<u32, DecodeError>
        ensures reads { Answers (λ x. (x, self.new.rest.now)) result ((s33 self.old.end).read self.old.rest.now) }
        ensures whole { self.new.end ≡ self.old.end }
    {
        self.taken(read_s33(self.rest))
    }

    /// A size, and a part of this size.
    pub fn part(&mut self) -> Result<Reader<'a>, DecodeError>
        ensures reads { Answers (λ x. (x.rest.now, self.new.rest.now)) result
            ((sized self.old.end).read self.old.rest.now) }
        ensures end { IfOk result (λ x. x.end ≡ self.new.end - length self.new.rest.now) }
        ensures whole { self.new.end ≡ self.old.end }
    {
        let size = self.number()?;
        let rest = self.bytes(size as usize)?;
        Ok(Reader {
            rest,
            end: self.place(),
        })
    }

    /// Nothing more stands there.
    pub fn finish(&self) -> Result<(), DecodeError>
        ensures { Answers (λ _. (0, self.now.rest.now)) result
            ((at_end (at self.now.end Fault.SizeMismatch)).read self.now.rest.now) }
    {
        if self.rest.is_empty() {
            return Ok(());
        }
        Err(self.fault(Fault::SizeMismatch))
    }

    /// A name.
    pub fn name(&mut self) -> Result<&'a str, DecodeError>
        ensures reads { Answers (λ x. (x.now, self.new.rest.now)) result ((name self.old.end).read self.old.rest.now) }
        ensures whole { self.new.end ≡ self.old.end }
    {
        let place = self.place();
        let count = self.number()?;
        match text_of(self.bytes(count as usize)?) {
            Some(text) => Ok(text),
            None => Err(DecodeError::At(Fault::NotUtf8, place)),
        }
    }

    /// A name that is a label.
    pub fn label(&mut self, alloc: Global) -> Result<Label, DecodeError>
        ensures reads { Answers (λ x. (x, self.new.rest.now)) result ((label self.old.end).read self.old.rest.now) }
        ensures whole { self.new.end ≡ self.old.end }
    {
        let place = self.place();
        let text = self.name()?.as_bytes();
        if !is_label(text) {
            return Err(DecodeError::At(Fault::NotLabel, place));
        }
        Ok(Label::from_bytes(alloc, text)?)
    }

    /// The byte before the name of an import or an export: 0, or 1 as older tools write it.
    fn mark(&mut self) -> Result<u8, DecodeError>
        ensures reads { Answers (λ x. (x, self.new.rest.now)) result
            ((judged self.old.end (byte self.old.end) mark_of).read self.old.rest.now) }
        ensures whole { self.new.end ≡ self.old.end }
    {
        let place = self.place();
        match self.byte()? {
            0 => Ok(0),
            1 => Ok(1),
            2 => Err(DecodeError::At(Fault::Outside(Feature::VersionSuffix), place)),
            byte => Err(DecodeError::At(Fault::UnknownByte(byte), place)),
        }
    }

    /// The name of an import or an export.
    pub fn extern_name(&mut self, alloc: Global) -> Result<ExternName, DecodeError>
        ensures reads { Answers (λ x. (extern_view x, self.new.rest.now)) result
            ((extern_name self.old.end).read self.old.rest.now) }
        ensures whole { self.new.end ≡ self.old.end }
    {
        self.mark()?;
        let place = self.place();
        let text = self.name()?;
        if is_label(text.as_bytes()) {
            return Ok(ExternName::Label(Label::from_bytes(alloc, text.as_bytes())?));
        }
        match full_name(alloc, text)? {
            Some(name) => Ok(name),
            None => Err(DecodeError::At(name_fault(text), place)),
        }
    }
}

/// The full name that a text spells, if it spells one.
fn full_name(alloc: Global, text: &str) -> Result<Option<ExternName>, AllocError>
    ensures { IfOk result (λ x. MatchOption x (is_full_name text.now ≡ false)
        (λ n. (is_full_name text.now ≡ true) × (extern_view n ≡ Full text.now))) }
{
    match FullName::parse(alloc, text) {
        Ok(name) => Ok(Some(ExternName::FullName(Box::new(alloc, name)?))),
        Err(AtomError::BadName) => Ok(None),
        Err(_) => Err(AllocError),
    }
}
