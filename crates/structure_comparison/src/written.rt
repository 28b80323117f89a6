//! Lists of a table that stand in step with what was read.
ghost use Rattle.std.specs.Prelude.{IsTrue};
ghost use Rattle.structure_comparison.specs.InStep.{InStep};
ghost use Rattle.structure_comparison.specs.Types.{site_view};

use crate::site::Site;

/// A part of a table that may be written as one of these.
pub trait WrittenAs<R> {
    ghost use Rattle.std.specs.Prelude.{IsTrue};
    ghost use Rattle.structure_comparison.specs.Types.{SitePart, site_view};

    ghost written: { SitePart → Self → R → Type 0 };

    /// Whether it is written as this there.
    fn is_written(&self, read: &R, site: &Site<'_>) -> bool
        ensures { IsTrue result → written (site_view site.now) self.now read.now };
}

/// Whether items are written as these, in order.
pub fn are_written<T: WrittenAs<R>, R>(site: &Site<'_>, items: &[T], read: &[R]) -> bool
    ensures { IsTrue result → InStep (T.written (site_view site.now)) items.now read.now }
{
    if items.len() != read.len() {
        return false;
    }
    for (place, item) in items.iter().enumerate() {
        if !item.is_written(&read[place], site) {
            return false;
        }
    }
    true
}
