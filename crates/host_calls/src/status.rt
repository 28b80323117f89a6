//! What an export answers.
ghost use Rattle.std.specs.Prelude.{◌≡◌, Some};
ghost use Rattle.host_calls.specs.Lines.{numbered_kind, numbered_step, numbered_error, status_words, line_of};
ghost use Rattle.host_calls.specs.Status.{told, status_of, refused, out_of_memory};

use crate::error::CallError;
use canonical_abi::{Fault, Step, Trap, TrapKind};
use error_numbers::Numbered;
use std::fmt;

/// Whether it was done, and how many things were told; or why not. `code` is 0 where it was done, 1 where it was
/// refused, with the number of the refusal, 2 for a trap, with the number of its kind and its step, and 3 where the
/// library had no memory, with the number of where. It is displayed as the program's line, a refusal that has more to
/// tell by its number alone; as nothing where it was done.
#[repr(C)]
#[derive(Clone, Copy, Debug)]
pub struct Status {
    pub code: u32,
    pub number: u32,
    pub step: u32,
    pub count: u32,
}

/// A count as C is told it: the greatest number of 32 bits where it is more.
pub fn told(count: usize) -> u32
    ensures { result ≡ told count }
{
    u32::try_from(count).unwrap_or(u32::MAX)
}

/// A refusal of this number: its count is how many things there has to be room for, or the index of a block.
pub fn refused(number: u32, count: u32) -> Status
    ensures { result ≡ refused number count }
{
    Status {
        code: 1,
        number,
        step: 0,
        count,
    }
}

/// The library had no memory, by the number of where it was out of it.
pub fn out_of_memory(number: u32) -> Status
    ensures { result ≡ out_of_memory number }
{
    Status {
        code: 3,
        number,
        step: 0,
        count: 0,
    }
}

impl Status {
    /// The status of a call that was done, with how many things it returned, or of why it was not done.
    pub fn of(done: Result<usize, CallError>) -> Status
        ensures status { result ≡ status_of done }
        ensures line { status_words result ≡ line_of done }
    {
        match done {
            Ok(count) => Status {
                code: 0,
                number: 0,
                step: 0,
                count: told(count),
            },
            Err(CallError::NoFunction) => refused(63, 0),
            Err(CallError::NotOpen) => refused(70, 0),
            Err(CallError::NoRoom(count)) => refused(71, told(count)),
            Err(CallError::BadBlock) => refused(72, 0),
            Err(CallError::OtherBlock(index)) => refused(73, told(index)),
            Err(CallError::BadLengths) => refused(74, 0),
            Err(CallError::NotThere) => refused(75, 0),
            Err(CallError::LongBinary) => refused(17, 0),
            Err(CallError::LongText) => refused(36, 0),
            Err(CallError::AboveLimit) => refused(76, 0),
            Err(CallError::BadJson) => refused(61, 0),
            Err(CallError::NotThisType) => refused(62, 0),
            Err(CallError::NoMemory | CallError::Fault(Fault::NoMemory)) => out_of_memory(66),
            Err(CallError::Fault(Fault::Trap(trap))) => Status {
                code: 2,
                number: trap.number(),
                step: trap.step.number(),
                count: 0,
            },
        }
    }
}

/// The kind of trap with this number; none has another one than 1 to 8.
fn numbered_kind(number: u32) -> Option<TrapKind>
    ensures { result ≡ numbered_kind number }
{
    match number {
        1 => Some(TrapKind::Char),
        2 => Some(TrapKind::Case),
        3 => Some(TrapKind::Align),
        4 => Some(TrapKind::Bounds),
        5 => Some(TrapKind::Utf8),
        6 => Some(TrapKind::Full),
        7 => Some(TrapKind::Body),
        8 => Some(TrapKind::CoreSignature),
        _ => None,
    }
}

/// The step with this number.
fn numbered_step(number: u32) -> Option<Step>
    ensures { result ≡ numbered_step number }
{
    match number {
        0 => Some(Step::Place),
        1 => Some(Step::Take),
        2 => Some(Step::LiftArgs),
        3 => Some(Step::LowerArgs),
        4 => Some(Step::Body),
        5 => Some(Step::LiftResult),
        6 => Some(Step::LowerResult),
        7 => Some(Step::Post),
        _ => None,
    }
}

/// The error of this number; none where that tells too little.
fn numbered_error(number: u32, count: u32) -> Option<CallError>
    ensures { result ≡ numbered_error number count }
{
    match number {
        61 => Some(CallError::BadJson),
        62 => Some(CallError::NotThisType),
        63 => Some(CallError::NoFunction),
        70 => Some(CallError::NotOpen),
        71 => Some(CallError::NoRoom(count as usize)),
        72 => Some(CallError::BadBlock),
        73 => Some(CallError::OtherBlock(count as usize)),
        74 => Some(CallError::BadLengths),
        75 => Some(CallError::NotThere),
        76 => Some(CallError::AboveLimit),
        _ => None,
    }
}

impl fmt::Display for Status {
    ghost output = { λ s. Some (status_words s) };

    fn fmt<W: fmt::Write>(&self, f: &mut fmt::Formatter<W>) -> fmt::Result {
        match self.code {
            0 => Ok(()),
            1 => match numbered_error(self.number, self.count) {
                Some(error) => write!(f, "{error}"),
                None => write!(f, "error {}", self.number),
            },
            2 => match (numbered_kind(self.number), numbered_step(self.step)) {
                (Some(kind), Some(step)) => write!(f, "{}", Trap { kind, step }),
                _ => Ok(()),
            },
            _ => write!(f, "error {} no memory", self.number),
        }
    }
}
