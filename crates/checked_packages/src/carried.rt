//! The packages that a binary carries, in the order in which they depend on each other.
ghost use Rattle.std.specs.Prelude.{◌≡◌, ◌<◌, length, IfOk};

use crate::graph::graph_of;
use crate::package_order::{Arrangement, arranged};
use component_decoding::DecodeError;
use std::alloc::{AllocError, Global};
use wit_binaries::decoded_packages::PackageText;
use wit_binaries::texts_in;
use wit_faults::{Report, Style};
use wit_files::{Source, members_of};

/// The most packages of a set.
const MAX_PACKAGES: usize = 64;

/// The texts of packages, as files that no folder has.
fn sources_of(alloc: Global, texts: Vec<PackageText>) -> Result<Vec<Source>, AllocError>
    ensures { IfOk result (λ sources. length sources.items ≡ length texts.items) }
{
    let mut sources = Vec::new(alloc);
    for package in texts {
        sources.push(Source {
            path: package.name,
            folder: String::new(alloc),
            is_dependency: package.is_dependency,
            bytes: Ok(package.text.into_bytes()),
        })?;
    }
    Ok(sources)
}

/// The places of texts, each after those that it depends on. There are none if one can't be read, or if they depend on
/// each other.
fn order_of(alloc: Global, sources: &[Source]) -> Result<Vec<usize>, AllocError> {
    let mut report = Report::new(alloc, Style::Json);
    let members = members_of(alloc, &mut report, sources)?;
    if report.status != 0 {
        return Ok(Vec::new(alloc));
    }
    let graph = graph_of(alloc, members.list.as_slice())?;
    match arranged(alloc, graph.as_slice())? {
        Arrangement::Order(order) => Vec::from_slice(alloc, order.as_slice()),
        Arrangement::Cycle(_) => Ok(Vec::new(alloc)),
    }
}

/// The texts of the packages that a binary carries.
#[derive(Drop)]
pub struct Carried {
    sources: Vec<Source>,
    /// Their places in the order in which they depend on each other, or nothing if there is no such order.
    order: Vec<usize>,
    ghost some: { 0 < length sources.items },
}

impl Carried {
    /// The packages of a binary as `wit-explain decode` reads it. More than a set may have are not put in order.
    pub fn of(alloc: Global, bytes: &[u8]) -> Result<Carried, DecodeError> {
        let sources = sources_of(alloc, texts_in(alloc, bytes)?)?;
        let order = if sources.len() > MAX_PACKAGES {
            Vec::new(alloc)
        } else {
            order_of(alloc, sources.as_slice())?
        };
        Ok(Carried { sources, order })
    }

    /// The text at a place.
    fn text_at(&self, place: usize) -> &[u8] {
        match self.sources.as_slice().get(place) {
            Some(
                Source {
                    bytes: Ok(bytes),
                    ..
                },
            ) => bytes.as_slice(),
            _ => &[],
        }
    }

    /// The texts, each after those that it depends on. If one is no text of a package, or if they depend on each other,
    /// they are in any order.
    pub fn texts(&self, alloc: Global) -> Result<Vec<&[u8]>, AllocError>
        ensures { IfOk result (λ texts. 0 < length texts.items) }
    {
        let mut texts = Vec::new(alloc);
        for place in 0..self.sources.len() {
            let at = self.order.as_slice().get(place).copied().unwrap_or(place);
            texts.push(self.text_at(at))?;
        }
        Ok(texts)
    }
}
