//! Variants of eight to sixteen bytes, which cross as words: each case has a mask of the bytes that are its own.
ghost use Rattle.std.specs.Prelude.{◌≡◌, ◌⊎◌, ℕ, [], ◌∷◌, ◌+◌, ◌-◌, ◌*◌, ◌^◌, ◌<◌, ◌≤◌, length, get_or, IfSome, IsTrue};
ghost use Rattle.std.specs.Int.{w64, to_le_bytes};
ghost use Rattle.canonical_abi.specs.Types.{ClosedType};
ghost use Rattle.canonical_abi.specs.Layout.{size};
ghost use Rattle.ranges.specs.Bytewise.{capped_byte, cap_at, IsBytewise, IsTested, Crosses};
ghost use Rattle.ranges.specs.Columns.{AreMasks, case_in, columns_seen};

use crate::cases::{case_at, put_word, word_of};
use crate::columns::Column;
use crate::elements::Elements;
use crate::rows::Rows;
use canonical_abi::Guest;

/// The bytes of a chunk.
const CHUNK: usize = 2048;

/// Elements side by side: how many bytes each has, and how many they are.
#[derive(Clone, Copy)]
struct Run {
    width: usize,
    count: usize,
}

/// Where a word begins in two blocks, and where its mask begins in the rows.
#[derive(Clone, Copy)]
struct Word {
    at: usize,
    mask: usize,
}

/// The elements that crossed from the front of others: how many they are, and the nodes of their variants.
#[derive(Clone, Copy)]
pub(crate) struct Front {
    pub count: usize,
    pub seen: u64,
}

/// Whether the caps of all cases are 0 and 255 alone: so they are masks.
pub(crate) fn are_masks(rows: &Rows) -> bool
    requires { rows.now.cases ≤ 16 }
    ensures { IsTrue result → AreMasks rows.now }
{
    for i in 0..rows.cases * 16 {
        if rows.caps[i] != 0 && rows.caps[i] != 255 {
            return false;
        }
    }
    true
}

/// The eight bytes at a place, as a number.
#[inline(always)]
fn word_at(memory: &[u8], at: usize) -> u64
    requires { at + 8 ≤ length memory.now }
    ensures { (j : ℕ) → j < 8 → get_or (to_le_bytes w64 result) j 0 ≡ get_or memory.now (at + j) 0 }
{
    let mut bytes = [0; 8];
    bytes.copy_from_slice(&memory[at..at + 8]);
    u64::from_le_bytes(bytes)
}

/// The bytes of a word that a mask takes, and the others as they were.
#[inline(always)]
fn choose(old: u64, new: u64, mask: u64) -> u64
    ensures { (k : ℕ) → k < 8
        → (get_or (to_le_bytes w64 mask) k 0 ≡ 0) ⊎ (get_or (to_le_bytes w64 mask) k 0 ≡ 255)
        → get_or (to_le_bytes w64 result) k 0 ≡ capped_byte (get_or (to_le_bytes w64 mask) k 0)
        (get_or (to_le_bytes w64 old) k 0) (get_or (to_le_bytes w64 new) k 0) }
{
    new & mask | old & !mask
}

/// New bytes of a word over old ones, under its mask.
#[inline(always)]
fn merge_word(buffer: &mut [u8; 2048], rows: &Rows, word: Word, old: &[u8], new: &[u8])
    requires known { word.mask + 8 ≤ 256 }
    requires few { word.at + 8 ≤ 2048 }
    requires old { word.at + 8 ≤ length old.now }
    requires new { word.at + 8 ≤ length new.now }
    ensures put { AreMasks rows.now → word.mask + 8 ≤ rows.now.cases * 16 → (j : ℕ) → j < 8
        → get_or buffer.new (word.at + j) 0 ≡ capped_byte (get_or rows.now.caps (word.mask + j) 0)
        (get_or old.now (word.at + j) 0) (get_or new.now (word.at + j) 0) }
    ensures below { (i : ℕ) → i < word.at → get_or buffer.new i 0 ≡ get_or buffer.old i 0 }
{
    let mask = word_of(&rows.caps, word.mask);
    let chosen = choose(word_at(old, word.at), word_at(new, word.at), mask);
    put_word(buffer, word.at, chosen, 8);
}

/// New elements over old ones, each under the mask of its case: the nodes of their variants, or None where one has no
/// case. An element is two words, which may overlap.
#[inline(always)]
fn merge_rows(
    buffer: &mut [u8; 2048],
    column: &Column,
    old: &[u8],
    new: &[u8],
    run: Run,
) -> Option<u64>
    requires front { column.now.at ≡ 0 }
    requires few_cases { column.now.rows.cases ≤ 16 }
    requires masks { AreMasks column.now.rows }
    requires long { 8 ≤ run.width }
    requires short { run.width ≤ 16 }
    requires few { run.count * run.width ≤ 2048 }
    requires old { run.count * run.width ≤ length old.now }
    requires new { run.count * run.width ≤ length new.now }
    ensures good { IfSome result (λ _. (e : ℕ) → e < run.count
        → case_in column.now new.now (0 + e * run.width) < column.now.rows.cases) }
    ensures merged { IfSome result (λ _. (e j : ℕ) → e < run.count → j < run.width
        → get_or buffer.new (e * run.width + j) 0
        ≡ capped_byte (get_or column.now.rows.caps (case_in column.now new.now (0 + e * run.width) * 16 + j) 0)
        (get_or old.now (e * run.width + j) 0) (get_or new.now (e * run.width + j) 0)) }
    ensures nodes { IfSome result (λ k. k ≡ columns_seen (column.now ∷ []) run.width new.now 0 run.count) }
    ensures small { IfSome result (λ k. k ≤ run.count * 255) }
{
    let cases = column.rows.cases as u64;
    let last = run.width - 8;
    let mut bad: u64 = 0;
    let mut seen: u64 = 0;
    for i in 0..run.count {
        let at = i * run.width;
        let case = case_at(new, at, run.width);
        bad += u64::from(case >= cases);
        let row = (case % 16) as usize;
        seen += u64::from(column.rows.nodes[row]);
        let mask = row * 16;
        merge_word(buffer, &column.rows, Word { at, mask }, old, new);
        let second = Word {
            at: at + last,
            mask: mask + last,
        };
        merge_word(buffer, &column.rows, second, old, new);
    }
    if bad == 0 { Some(seen) } else { None }
}

/// The same where the variant has eight bytes and two cases, as an option: a choice of two masks is faster than a row.
#[inline(never)]
fn merge_two(
    buffer: &mut [u8; 2048],
    column: &Column,
    old: &[u8],
    new: &[u8],
    count: usize,
) -> Option<u64>
    requires front { column.now.at ≡ 0 }
    requires two { column.now.rows.cases ≡ 2 }
    requires masks { AreMasks column.now.rows }
    requires few { count ≤ 256 }
    requires old { count * 8 ≤ length old.now }
    requires new { count * 8 ≤ length new.now }
    ensures good { IfSome result (λ _. (e : ℕ) → e < count
        → case_in column.now new.now (0 + e * 8) < column.now.rows.cases) }
    ensures merged { IfSome result (λ _. (e j : ℕ) → e < count → j < 8 → get_or buffer.new (e * 8 + j) 0
        ≡ capped_byte (get_or column.now.rows.caps (case_in column.now new.now (0 + e * 8) * 16 + j) 0)
        (get_or old.now (e * 8 + j) 0) (get_or new.now (e * 8 + j) 0)) }
    ensures nodes { IfSome result (λ k. k ≡ columns_seen (column.now ∷ []) 8 new.now 0 count) }
    ensures small { IfSome result (λ k. k ≤ count * 255) }
{
    let first = word_of(&column.rows.caps, 0);
    let second = word_of(&column.rows.caps, 16);
    let mut bad: u64 = 0;
    let mut seconds: u64 = 0;
    for i in 0..count {
        let word = word_at(new, i * 8);
        let case = word % 256;
        bad += u64::from(case >= 2);
        seconds += case;
        let mask = if case == 0 { first } else { second };
        put_word(buffer, i * 8, choose(word_at(old, i * 8), word, mask), 8);
    }
    if bad > 0 {
        return None;
    }
    let firsts = count as u64 - seconds;
    Some(firsts * u64::from(column.rows.nodes[0]) + seconds * u64::from(column.rows.nodes[1]))
}

/// The same with the width as a constant where it is a usual one.
#[inline(never)]
fn merge(
    buffer: &mut [u8; 2048],
    column: &Column,
    old: &[u8],
    new: &[u8],
    count: usize,
) -> Option<u64>
    requires front { column.now.at ≡ 0 }
    requires few_cases { column.now.rows.cases ≤ 16 }
    requires masks { AreMasks column.now.rows }
    requires long { 8 ≤ column.now.rows.size }
    requires short { column.now.rows.size ≤ 16 }
    requires few { count * column.now.rows.size ≤ 2048 }
    requires old { count * column.now.rows.size ≤ length old.now }
    requires new { count * column.now.rows.size ≤ length new.now }
    ensures good { IfSome result (λ _. (e : ℕ) → e < count
        → case_in column.now new.now (0 + e * column.now.rows.size) < column.now.rows.cases) }
    ensures merged { IfSome result (λ _. (e j : ℕ) → e < count → j < column.now.rows.size
        → get_or buffer.new (e * column.now.rows.size + j) 0
        ≡ capped_byte (get_or column.now.rows.caps
        (case_in column.now new.now (0 + e * column.now.rows.size) * 16 + j) 0)
        (get_or old.now (e * column.now.rows.size + j) 0) (get_or new.now (e * column.now.rows.size + j) 0)) }
    ensures nodes { IfSome result (λ k. k
        ≡ columns_seen (column.now ∷ []) column.now.rows.size new.now 0 count) }
    ensures small { IfSome result (λ k. k ≤ count * 255) }
{
    match (column.rows.cases, column.rows.size) {
        (2, 8) => merge_two(buffer, column, old, new, count),
        (_, 12) => merge_rows(buffer, column, old, new, Run { width: 12, count }),
        (_, 16) => merge_rows(buffer, column, old, new, Run { width: 16, count }),
        (_, width) => merge_rows(buffer, column, old, new, Run { width, count }),
    }
}

/// The same of a chunk of a memory over one of another.
#[inline(always)]
fn merge_chunk(
    buffer: &mut [u8; 2048],
    column: &Column,
    memory: &[u8],
    source: &[u8],
    chunk: Elements,
) -> Option<u64>
    requires front { column.now.at ≡ 0 }
    requires few_cases { column.now.rows.cases ≤ 16 }
    requires masks { AreMasks column.now.rows }
    requires long { 8 ≤ column.now.rows.size }
    requires short { column.now.rows.size ≤ 16 }
    requires few { chunk.count * column.now.rows.size ≤ 2048 }
    requires room { chunk.to + chunk.count * column.now.rows.size ≤ length memory.now }
    requires inside { chunk.from + chunk.count * column.now.rows.size ≤ length source.now }
    ensures good { IfSome result (λ _. (e : ℕ) → e < chunk.count
        → case_in column.now source.now (chunk.from + e * column.now.rows.size) < column.now.rows.cases) }
    ensures merged { IfSome result (λ _. (e j : ℕ) → e < chunk.count → j < column.now.rows.size
        → get_or buffer.new (e * column.now.rows.size + j) 0
        ≡ capped_byte (get_or column.now.rows.caps
        (case_in column.now source.now (chunk.from + e * column.now.rows.size) * 16 + j) 0)
        (get_or memory.now (chunk.to + (e * column.now.rows.size + j)) 0)
        (get_or source.now (chunk.from + (e * column.now.rows.size + j)) 0)) }
    ensures nodes { IfSome result (λ k. k
        ≡ columns_seen (column.now ∷ []) column.now.rows.size source.now chunk.from chunk.count) }
    ensures small { IfSome result (λ k. k ≤ chunk.count * 255) }
{
    let bytes = chunk.count * column.rows.size;
    let old = &memory[chunk.to..chunk.to + bytes];
    let new = &source[chunk.from..chunk.from + bytes];
    merge(buffer, column, old, new, chunk.count)
}

/// Crosses variants up to the chunk with the first that has no case.
pub(crate) fn cross_words<G: Guest>(
    column: &Column,
    source: &[u8],
    elements: Elements,
    guest: &mut G,
) -> Front
    requires front { column.now.at ≡ 0 }
    requires few_cases { column.now.rows.cases ≤ 16 }
    requires masks { AreMasks column.now.rows }
    requires long { 8 ≤ column.now.rows.size }
    requires short { column.now.rows.size ≤ 16 }
    requires inside { elements.from + elements.count * column.now.rows.size ≤ length source.now }
    requires room { elements.to + elements.count * column.now.rows.size ≤ length (G.memory guest.old).bytes }
    requires small { elements.to + elements.count * column.now.rows.size < 2 ^ 32 }
    ensures within { result.count ≤ elements.count }
    ensures good { (e : ℕ) → e < result.count
        → case_in column.now source.now (elements.from + e * column.now.rows.size) < column.now.rows.cases }
    ensures crosses { (t : ClosedType) → IsBytewise t → size t ≡ column.now.rows.size
        → ((a : ℕ) → case_in column.now source.now a < column.now.rows.cases → IsTested t source.now a)
        → ((a j : ℕ) → case_in column.now source.now a < column.now.rows.cases → j < column.now.rows.size
        → get_or column.now.rows.caps (case_in column.now source.now a * 16 + j) 0 ≡ cap_at t source.now a j)
        → Crosses t source.now elements.from result.count G.allocates (G.memory guest.old) elements.to
        (G.memory guest.new) }
    ensures seen { result.seen
        ≡ columns_seen (column.now ∷ []) column.now.rows.size source.now elements.from result.count }
    ensures few_seen { result.seen ≤ result.count * 255 }
    ensures same_length { length (G.memory guest.new).bytes ≡ length (G.memory guest.old).bytes }
{
    let mut buffer = [0; 2048];
    let step = column.rows.size;
    let whole = CHUNK / step;
    let mut done = 0;
    let mut seen: u64 = 0;
    while done < elements.count {
        let part = whole.min(elements.count - done);
        let chunk = Elements {
            from: elements.from + done * step,
            to: elements.to + done * step,
            count: part,
        };
        let Some(nodes) = merge_chunk(&mut buffer, column, guest.bytes(), source, chunk) else {
            return Front { count: done, seen };
        };
        guest.write(chunk.to as u32, &buffer[..part * step]);
        seen += nodes;
        done += part;
    }
    Front { count: done, seen }
}
