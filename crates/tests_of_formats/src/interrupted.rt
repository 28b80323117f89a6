//! Calls of std's readers and writers that are interrupted or fail.

use atoms::{Failed, ReadUpToError, Sink, Source, Watched, read_up_to, write_all};
use std::io::{self, Error, ErrorKind, Read, Write};
use std::test::*;

/// A reader of sevens and a writer that takes two bytes a call. Its first calls are interrupted, and then it works or
/// fails.
#[derive(Drop)]
struct Interrupted {
    times: usize,
    works: bool,
    taken: usize,
}

impl Interrupted {
    fn call(&mut self) -> Result<(), Error> {
        if self.times > 0 {
            self.times -= 1;
            return Err(Error::from(ErrorKind::Interrupted));
        }
        if self.works {
            Ok(())
        } else {
            Err(Error::from(ErrorKind::Other))
        }
    }
}

impl Read for Interrupted {
    fn read(&mut self, buffer: &mut [u8]) -> io::Result<usize> {
        self.call()?;
        if buffer.is_empty() {
            return Ok(0);
        }
        buffer[0] = 7;
        Ok(1)
    }
}

impl Write for Interrupted {
    fn write(&mut self, bytes: &[u8]) -> io::Result<usize> {
        self.call()?;
        let count = bytes.len().min(2);
        self.taken = self.taken.saturating_add(count);
        Ok(count)
    }

    fn flush(&mut self) -> io::Result<()> {
        Ok(())
    }
}

/// One whose first three calls are interrupted.
fn thrice_interrupted(works: bool) -> Interrupted {
    Interrupted {
        times: 3,
        works,
        taken: 0,
    }
}

#[test]
fn reads(rt: HostRuntime) -> Result<(), Fail> {
    let mut reader = Watched::new(thrice_interrupted(true));
    let mut buffer = [0; 4];
    assert!(rt; reader.read(&mut buffer) == Ok(1));
    assert!(rt; buffer == [7, 0, 0, 0]);
    assert!(rt; !Source::failed(&reader));
    Ok(())
}

#[test]
fn reads_up_to(rt: HostRuntime) -> Result<(), Fail> {
    let mut reader = Watched::new(thrice_interrupted(true));
    let Ok(bytes) = read_up_to(rt.alloc(), &mut reader, 4) else {
        return Err(Fail::from("a failed read"));
    };
    assert!(rt; bytes.as_slice() == [7; 5].as_slice());
    Ok(())
}

#[test]
fn reads_that_fail(rt: HostRuntime) -> Result<(), Fail> {
    let mut reader = Watched::new(thrice_interrupted(false));
    let read = read_up_to(rt.alloc(), &mut reader, 4);
    assert!(rt; matches!(read, Err(ReadUpToError::Failed(0))));
    assert!(rt; Source::failed(&reader));
    Ok(())
}

#[test]
fn writes(rt: HostRuntime) -> Result<(), Fail> {
    let mut writer = Watched::new(thrice_interrupted(true));
    assert!(rt; write_all(&mut writer, b"abcde") == Ok(()));
    assert!(rt; !Sink::failed(&writer));
    assert!(rt; writer.into_inner().taken == 5);
    Ok(())
}

#[test]
fn writes_that_fail(rt: HostRuntime) -> Result<(), Fail> {
    let mut writer = Watched::new(thrice_interrupted(false));
    assert!(rt; write_all(&mut writer, b"abcde") == Err(Failed));
    assert!(rt; Sink::failed(&writer));
    Ok(())
}

/// A writer that takes no byte.
#[derive(Drop)]
struct Idle;

impl Write for Idle {
    fn write(&mut self, _bytes: &[u8]) -> io::Result<usize> {
        Ok(0)
    }

    fn flush(&mut self) -> io::Result<()> {
        Ok(())
    }
}

/// Where none of some bytes is taken, the write has failed; where there is none to take, it hasn't.
#[test]
fn writes_of_nothing(rt: HostRuntime) -> Result<(), Fail> {
    let mut writer = Watched::new(Idle);
    assert!(rt; write_all(&mut writer, b"") == Ok(()));
    assert!(rt; !Sink::failed(&writer));
    assert!(rt; write_all(&mut writer, b"abc") == Err(Failed));
    assert!(rt; Sink::failed(&writer));
    Ok(())
}
