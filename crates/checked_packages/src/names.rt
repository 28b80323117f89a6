//! The faults of a package's names. Each is found without the items of those before it.
ghost use Rattle.std.specs.Prelude.{◌≡◌, OnOk};

use std::alloc::{AllocError, Global};
use tables::ResolveError;
use wit_faults::{Around, Cause, Known, PackageFault, Report, package_fault};
use wit_files::{Member, RemainingItems};
use wit_text::Span;

/// A fault at a place of one of the package's files.
#[derive(Drop)]
struct NameFault {
    /// Its file, by its number, and its offset there.
    place: (usize, usize),
    span: Option<Span>,
    words: String,
    hint: String,
}

/// The faults so far.
#[derive(Drop)]
pub struct NameFaults<'a> {
    alloc: Global,
    /// The package without the items that have them.
    pub rest: RemainingItems<'a>,
    list: Vec<NameFault>,
}

impl<'a> NameFaults<'a> {
    /// None yet.
    pub fn of(alloc: Global, member: &Member<'a>) -> Result<NameFaults<'a>, AllocError> {
        Ok(NameFaults {
            alloc,
            rest: RemainingItems::of(alloc, member)?,
            list: Vec::new(alloc),
        })
    }

    /// Whether a name is unknown since its declaration was skipped.
    fn is_echo(&self, cause: &Cause) -> bool {
        match cause {
            Cause::Resolve(ResolveError::Unknown(label)) => self.rest.has_skipped(label.as_str()),
            _ => false,
        }
    }

    /// How a fault is told, and where it is.
    fn fault_of<'b>(
        &'b self,
        known: &'b [Known<'b>],
        cause: &Cause,
    ) -> Result<NameFault, AllocError> {
        let around = Around {
            files: self.rest.files.as_slice(),
            known,
        };
        let PackageFault { found, words, hint } = package_fault(self.alloc, around, cause)?;
        let span = found.and_then(|found| found.span);
        let path = found.map_or("", |found| found.lexed.path);
        let offset = span.map_or(usize::MAX, |span| span.start);
        Ok(NameFault {
            place: (self.rest.file_at(path).unwrap_or(0), offset),
            span,
            words,
            hint,
        })
    }

    /// Adds a fault, and skips its item. False if nothing more can be found then.
    pub fn add(&mut self, known: &[Known<'_>], cause: &Cause) -> Result<bool, AllocError> {
        let fault = self.fault_of(known, cause)?;
        let (file, offset) = fault.place;
        if !self.is_echo(cause) {
            self.list.push(fault)?;
        }
        match cause {
            Cause::Resolve(_) => self.rest.skip(file, offset),
            _ => Ok(false),
        }
    }

    /// Reports them in the order of their places.
    pub fn report(self, report: &mut Report) -> Result<(), AllocError>
        ensures { OnOk result (report.new.status ≡ 1) }
    {
        let NameFaults {
            alloc,
            rest,
            mut list,
        } = self;
        list.sort_by_key(|fault| fault.place)?;
        for fault in list {
            if let Some(lexed) = rest.files.get(fault.place.0) {
                let (words, hint) = (fault.words.as_str(), fault.hint.as_str());
                report.add_at(alloc, lexed, fault.span, words, hint);
            }
        }
        report.status = 1;
        Ok(())
    }
}
