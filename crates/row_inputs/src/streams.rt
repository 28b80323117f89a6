//! An input that is given byte by byte and may fail, one that never ends, and an output that takes so many bytes and
//! then fails.

ghost use Rattle.std.specs.Prelude.{◌≡◌, false};

use atoms::{Failed, Sink, Source};

/// Bytes, one a call, and a failure after so many.
#[derive(Drop)]
pub struct Drip<'a> {
    bytes: &'a [u8],
    given: usize,
    fails_at: usize,
    failed: bool,
}

impl<'a> Drip<'a> {
    pub fn new(bytes: &'a [u8], fails_at: usize) -> Drip<'a>
        ensures { result.failed ≡ false }
    {
        Drip {
            bytes,
            given: 0,
            fails_at,
            failed: false,
        }
    }
}

impl<'a> Source for Drip<'a> {
    ghost use Rattle.std.specs.Prelude.{None};

    ghost remaining = { λ _. None };

    ghost has_failed = { λ reader. reader.failed };

    fn read(&mut self, buffer: &mut [u8]) -> Result<usize, Failed> {
        if self.fails_at == self.given {
            self.failed = true;
            return Err(Failed);
        }
        if buffer.is_empty() {
            return Ok(0);
        }
        match self.bytes.get(self.given) {
            Some(byte) => {
                buffer[0] = *byte;
                self.given += 1;
                Ok(1)
            }
            None => Ok(0),
        }
    }

    fn failed(&self) -> bool {
        self.failed
    }
}

/// Zeros that never end.
#[derive(Drop)]
pub struct Zeros;

impl Source for Zeros {
    ghost use Rattle.std.specs.Prelude.{None};

    ghost remaining = { λ _. None };

    ghost has_failed = { λ _. false };

    fn read(&mut self, buffer: &mut [u8]) -> Result<usize, Failed> {
        buffer.fill(0);
        Ok(buffer.len())
    }

    fn failed(&self) -> bool {
        false
    }
}

/// A sink that keeps what it takes, and fails where its room is full.
#[derive(Drop)]
pub struct Short {
    pub taken: Vec<u8>,
    room: usize,
    failed: bool,
}

impl Short {
    pub fn new(taken: Vec<u8>, room: usize) -> Short
        ensures { result.failed ≡ false }
    {
        Short {
            taken,
            room,
            failed: false,
        }
    }
}

impl Sink for Short {
    ghost use Rattle.std.specs.Prelude.{None};

    ghost contents = { λ _. None };

    ghost has_failed = { λ short. short.failed };

    fn write(&mut self, bytes: &[u8]) -> Result<usize, Failed> {
        let count = self.room.min(bytes.len());
        let is_kept = self.taken.extend_from_slice(&bytes[..count]).is_ok();
        if !is_kept || (count == 0 && !bytes.is_empty()) {
            self.failed = true;
            return Err(Failed);
        }
        self.room -= count;
        Ok(count)
    }

    fn failed(&self) -> bool {
        self.failed
    }
}
