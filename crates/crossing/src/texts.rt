//! Texts of a list, one after another.
ghost use Rattle.std.specs.Prelude.{◌+◌, ◌*◌, ◌^◌, ◌<◌, ◌≤◌, length};
ghost use Rattle.canonical_abi.specs.Types.{string_type};
ghost use Rattle.crossing.specs.Outcome.{EachWalks, Ends};

use crate::addresses::Addresses;
use crate::leaves::cross_text;
use crate::stopped::Stopped;
use canonical_abi::Guest;
use ranges::Elements;

/// Crosses so many texts one after another: a loop by itself, with no look at their type for each.
#[inline(always)]
fn cross_each_text<G: Guest>(
    source: &[u8],
    elements: Elements,
    guest: &mut G,
    nodes: &mut u64,
) -> Result<(), Stopped>
    requires short { length source.now < 2 ^ 32 }
    requires fits { elements.from + elements.count * 8 ≤ length source.now }
    requires room { elements.to + elements.count * 8 ≤ length (G.memory guest.old).bytes }
    requires small { elements.to + elements.count * 8 < 2 ^ 32 }
    ensures { Ends G.allocates (EachWalks string_type source.now elements.from elements.to elements.count)
        (G.memory guest.old) nodes.old result (G.memory guest.new) nodes.new }
{
    canonical_abi::laws::reads_exactly();
    for index in 0..elements.count {
        let ahead = index * 8;
        let at = Addresses {
            from: elements.from + ahead,
            to: elements.to + ahead,
        };
        *nodes = nodes.saturating_add(1);
        cross_text(source, at, guest)?;
    }
    Ok(())
}

/// Crosses so many texts. The nodes are counted in a variable of their own, which can be a register.
pub(crate) fn cross_texts<G: Guest>(
    source: &[u8],
    elements: Elements,
    guest: &mut G,
    nodes: &mut u64,
) -> Result<(), Stopped>
    requires short { length source.now < 2 ^ 32 }
    requires fits { elements.from + elements.count * 8 ≤ length source.now }
    requires room { elements.to + elements.count * 8 ≤ length (G.memory guest.old).bytes }
    requires small { elements.to + elements.count * 8 < 2 ^ 32 }
    ensures { Ends G.allocates (EachWalks string_type source.now elements.from elements.to elements.count)
        (G.memory guest.old) nodes.old result (G.memory guest.new) nodes.new }
{
    let mut seen = *nodes;
    let done = cross_each_text(source, elements, guest, &mut seen);
    *nodes = seen;
    done
}
