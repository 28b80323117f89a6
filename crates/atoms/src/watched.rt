//! Readers and writers of std's, which remember a failure.

ghost use Rattle.std.specs.Prelude.{◌≡◌, false};

use crate::stream::{Failed, Sink, Source};
use std::io::{Error, ErrorKind, Read, Write};

/// A reader or writer of std's, with whether it has failed. An interrupted call is tried again, and a
/// writer that takes no byte of some has failed.
#[derive(Debug, Drop)]
pub struct Watched<T> {
    pub inner: T,
    failed: bool,
}

impl<T> Watched<T> {
    /// The reader or writer, which has not failed yet.
    pub fn new(inner: T) -> Watched<T>
        ensures inner { result.inner ≡ inner }
        ensures failed { result.failed ≡ false }
    {
        Watched {
            inner,
            failed: false,
        }
    }

    /// The reader or writer itself.
    pub fn into_inner(self) -> T
        ensures { result ≡ self.inner }
    {
        let Watched { inner, failed: _ } = self;
        inner
    }
}

fn is_interrupted(error: &Error) -> bool {
    error.kind() == ErrorKind::Interrupted
}

impl<T: Read> Source for Watched<T> {
    ghost remaining = { λ watched. T.remaining watched.inner };

    ghost has_failed = { λ watched. watched.failed };

    fn read(&mut self, buffer: &mut [u8]) -> Result<usize, Failed> {
        for _ in 0..u64::MAX {
            match self.inner.read(buffer) {
                Ok(count) => return Ok(count),
                Err(error) => {
                    if !is_interrupted(&error) {
                        break;
                    }
                }
            }
        }
        self.failed = true;
        Err(Failed)
    }

    fn failed(&self) -> bool {
        self.failed
    }
}

impl<T: Write> Sink for Watched<T> {
    ghost contents = { λ watched. T.contents watched.inner };

    ghost has_failed = { λ watched. watched.failed };

    fn write(&mut self, bytes: &[u8]) -> Result<usize, Failed> {
        for _ in 0..u64::MAX {
            match self.inner.write(bytes) {
                Ok(0) if !bytes.is_empty() => break,
                Ok(count) => return Ok(count),
                Err(error) => {
                    if !is_interrupted(&error) {
                        break;
                    }
                }
            }
        }
        self.failed = true;
        Err(Failed)
    }

    fn failed(&self) -> bool {
        self.failed
    }
}
