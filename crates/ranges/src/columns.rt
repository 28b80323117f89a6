//! Elements with variants: their caps depend on what stands in the source.
ghost use Rattle.std.specs.Prelude.{◌≡◌, ℕ, ◌+◌, ◌-◌, ◌*◌, ◌^◌, ◌<◌, ◌≤◌, min, length, get_or, IfSome};
ghost use Rattle.canonical_abi.specs.Types.{ClosedType};
ghost use Rattle.ranges.specs.Bytewise.{Crosses, each_nodes};
ghost use Rattle.ranges.specs.Columns.{overlaid, HaveCases, columns_seen, AreBefore, HasPlan};

use crate::blend::{blend_chunk, repeat};
use crate::cases::fill_column;
use crate::elements::{Elements, Strided};
use crate::planned::Plan;
use crate::rows::Rows;
use canonical_abi::Guest;

/// The bytes of the elements of a chunk.
const CHUNK: usize = 2048;

/// Where a variant stands within an element, and how its bytes cross.
#[derive(Clone, Copy)]
pub struct Column {
    pub at: usize,
    pub rows: Rows,
}

impl Default for Column {
    fn default() -> Self {
        let rows = Rows {
            size: 0,
            cases: 0,
            caps: [0; 256],
            nodes: [0; 16],
        };
        Column { at: 0, rows }
    }
}

/// The caps of all columns' variants in so many elements, each by its case: the nodes of these, or None where one has
/// no case.
fn fill_columns(
    caps: &mut [u8; 2048],
    columns: &[Column],
    source: &[u8],
    elements: Strided,
) -> Option<u64>
    requires few_columns { length columns.now ≤ 8 }
    requires before { AreBefore elements.step columns.now }
    requires few { elements.count ≤ 2048 }
    requires room { elements.count * elements.step ≤ 2048 }
    requires inside { elements.from + elements.count * elements.step ≤ length source.now }
    ensures good { IfSome result (λ _. (e : ℕ) → e < elements.count
        → HaveCases columns.now source.now (elements.from + e * elements.step)) }
    ensures caps { IfSome result (λ _. (e j : ℕ) → e < elements.count → j < elements.step
        → get_or caps.new (e * elements.step + j) 0
        ≡ overlaid columns.now source.now (elements.from + e * elements.step) j
        (get_or caps.old (e * elements.step + j) 0)) }
    ensures nodes { IfSome result (λ k. k
        ≡ columns_seen columns.now elements.step source.now elements.from elements.count) }
    ensures small { IfSome result (λ k. k ≤ length columns.now * 522240) }
{
    match columns {
        [] => Some(0),
        [column, rest @ ..] => {
            let seen = fill_column(caps, column, source, elements)?;
            let others = fill_columns(caps, rest, source, elements)?;
            Some(seen + others)
        }
    }
}

/// Crosses elements up to the chunk with the first that has a variant without a case. Answers how many crossed, and
/// `nodes` grows by their nodes, as far as it has room.
pub(crate) fn cross_columns<G: Guest>(
    plan: &Plan,
    source: &[u8],
    elements: Elements,
    guest: &mut G,
    nodes: &mut u64,
) -> usize
    requires some { 0 < plan.now.plain.size }
    requires few { plan.now.plain.size ≤ 64 }
    requires before { AreBefore plan.now.plain.size plan.now.columns.items }
    requires inside { elements.from + elements.count * plan.now.plain.size ≤ length source.now }
    requires room { elements.to + elements.count * plan.now.plain.size ≤ length (G.memory guest.old).bytes }
    requires small { elements.to + elements.count * plan.now.plain.size < 2 ^ 32 }
    ensures within { result ≤ elements.count }
    ensures crosses { (t : ClosedType) → HasPlan t plan.now
        → Crosses t source.now elements.from result G.allocates (G.memory guest.old) elements.to (G.memory guest.new) }
    ensures visited { (t : ClosedType) → HasPlan t plan.now
        → min nodes.new (2 ^ 64 - 1) ≡ min (nodes.old + each_nodes t source.now elements.from result) (2 ^ 64 - 1) }
    ensures same_length { length (G.memory guest.new).bytes ≡ length (G.memory guest.old).bytes }
{
    let mut caps = [0; 2048];
    let mut buffer = [0; 2048];
    let step = plan.plain.size;
    let whole = CHUNK / step;
    repeat(
        &mut caps,
        &plan.plain.bytes,
        step,
        whole.min(elements.count) * step,
    );
    let mut done = 0;
    while done < elements.count {
        let part = whole.min(elements.count - done);
        let start = elements.from + done * step;
        let chunk = Strided {
            from: start,
            step,
            count: part,
        };
        let columns = plan.columns.as_slice();
        let Some(seen) = fill_columns(&mut caps, columns, source, chunk) else {
            return done;
        };
        let bytes = Elements {
            from: start,
            to: elements.to + done * step,
            count: part * step,
        };
        blend_chunk(&caps, &mut buffer, source, bytes, guest);
        let own = part as u64 * u64::from(plan.plain.nodes);
        *nodes = nodes.saturating_add(seen + own);
        done += part;
    }
    done
}
