//! The caps of a variant's bytes, which are those of its case.
ghost use Rattle.std.specs.Prelude.{◌≡◌, ℕ, [], ◌∷◌, ◌+◌, ◌-◌, ◌*◌, ◌^◌, ◌<◌, ◌≤◌, length, get_or, IfSome};
ghost use Rattle.std.specs.Int.{w64, to_le_bytes};
ghost use Rattle.ranges.specs.Columns.{case_in, laid, columns_seen};

use crate::columns::Column;
use crate::elements::Strided;

/// The eight caps at a place, as a number.
#[inline(always)]
pub(crate) fn word_of(rows: &[u8; 256], at: usize) -> u64
    requires { at + 8 ≤ 256 }
    ensures { (j : ℕ) → j < 8 → get_or (to_le_bytes w64 result) j 0 ≡ get_or rows.now (at + j) 0 }
{
    let mut bytes = [0; 8];
    bytes.copy_from_slice(&rows[at..at + 8]);
    u64::from_le_bytes(bytes)
}

/// The first byte of a variant of so many bytes. Eight are taken at one go, so that a loop over many is made into
/// vector code.
#[inline(always)]
pub(crate) fn case_at(memory: &[u8], at: usize, width: usize) -> u64
    requires some { 0 < width }
    requires inside { at + width ≤ length memory.now }
    ensures { result ≡ get_or memory.now at 0 }
{
    if width < 8 {
        return u64::from(memory[at]);
    }
    let mut bytes = [0; 8];
    bytes.copy_from_slice(&memory[at..at + 8]);
    u64::from_le_bytes(bytes) % 256
}

/// Puts the first caps of a word.
#[inline(always)]
pub(crate) fn put_word(caps: &mut [u8; 2048], at: usize, word: u64, width: usize)
    requires room { at + width ≤ 2048 }
    requires short { width ≤ 8 }
    ensures put { (j : ℕ) → j < width → get_or caps.new (at + j) 0 ≡ get_or (to_le_bytes w64 word) j 0 }
    ensures below { (i : ℕ) → i < at → get_or caps.new i 0 ≡ get_or caps.old i 0 }
    ensures above { (i : ℕ) → at + width ≤ i → get_or caps.new i 0 ≡ get_or caps.old i 0 }
{
    let bytes = word.to_le_bytes();
    caps[at..at + width].copy_from_slice(&bytes[..width]);
}

/// Puts the first caps of a case, as one word or two: as bytes, they would be put one by one, since the two arrays
/// could overlap.
#[inline(always)]
fn put_row(caps: &mut [u8; 2048], at: usize, rows: &[u8; 256], row: usize, width: usize)
    requires room { at + width ≤ 2048 }
    requires known { row < 16 }
    requires short { width ≤ 16 }
    ensures put { (j : ℕ) → j < width → get_or caps.new (at + j) 0 ≡ get_or rows.now (row * 16 + j) 0 }
    ensures below { (i : ℕ) → i < at → get_or caps.new i 0 ≡ get_or caps.old i 0 }
    ensures above { (i : ℕ) → at + width ≤ i → get_or caps.new i 0 ≡ get_or caps.old i 0 }
{
    let first = word_of(rows, row * 16);
    if width <= 8 {
        put_word(caps, at, first, width);
    } else {
        let second = word_of(rows, row * 16 + 8);
        put_word(caps, at, first, 8);
        put_word(caps, at + 8, second, width - 8);
    }
}

/// The caps of a column's variant in so many elements, each by its case: the nodes of these, or None where one has no
/// case.
#[inline(always)]
fn fill_rows(
    caps: &mut [u8; 2048],
    column: &Column,
    width: usize,
    source: &[u8],
    elements: Strided,
) -> Option<u64>
    requires wide { column.now.rows.size ≡ width }
    requires some { 0 < width }
    requires short { width ≤ 16 }
    requires few_cases { column.now.rows.cases ≤ 16 }
    requires within { column.now.at + width ≤ elements.step }
    requires few { elements.count ≤ 2048 }
    requires room { elements.count * elements.step ≤ 2048 }
    requires inside { elements.from + elements.count * elements.step ≤ length source.now }
    ensures good { IfSome result (λ _. (e : ℕ) → e < elements.count
        → case_in column.now source.now (elements.from + e * elements.step) < column.now.rows.cases) }
    ensures caps { IfSome result (λ _. (e j : ℕ) → e < elements.count → j < elements.step
        → get_or caps.new (e * elements.step + j) 0
        ≡ laid column.now (case_in column.now source.now (elements.from + e * elements.step)) j
        (get_or caps.old (e * elements.step + j) 0)) }
    ensures nodes { IfSome result (λ k. k
        ≡ columns_seen (column.now ∷ []) elements.step source.now elements.from elements.count) }
    ensures small { IfSome result (λ k. k ≤ 522240) }
{
    let start = column.at;
    let cases = column.rows.cases;
    let mut bad: u64 = 0;
    let mut seen: u64 = 0;
    for i in 0..elements.count {
        let place = i * elements.step + start;
        let case = usize::from(source[elements.from + place]);
        bad += u64::from(case >= cases);
        seen += u64::from(column.rows.nodes[case % 16]);
        put_row(caps, place, &column.rows.caps, case % 16, width);
    }
    if bad == 0 { Some(seen) } else { None }
}

/// The same where the variant has two cases, as an option, and at most eight bytes: a choice of two words is faster
/// than a row.
#[inline(always)]
fn fill_two(
    caps: &mut [u8; 2048],
    column: &Column,
    width: usize,
    source: &[u8],
    elements: Strided,
) -> Option<u64>
    requires wide { column.now.rows.size ≡ width }
    requires some { 0 < width }
    requires short { width ≤ 8 }
    requires two { column.now.rows.cases ≡ 2 }
    requires within { column.now.at + width ≤ elements.step }
    requires few { elements.count ≤ 2048 }
    requires room { elements.count * elements.step ≤ 2048 }
    requires inside { elements.from + elements.count * elements.step ≤ length source.now }
    ensures good { IfSome result (λ _. (e : ℕ) → e < elements.count
        → case_in column.now source.now (elements.from + e * elements.step) < column.now.rows.cases) }
    ensures caps { IfSome result (λ _. (e j : ℕ) → e < elements.count → j < elements.step
        → get_or caps.new (e * elements.step + j) 0
        ≡ laid column.now (case_in column.now source.now (elements.from + e * elements.step)) j
        (get_or caps.old (e * elements.step + j) 0)) }
    ensures nodes { IfSome result (λ k. k
        ≡ columns_seen (column.now ∷ []) elements.step source.now elements.from elements.count) }
    ensures small { IfSome result (λ k. k ≤ 522240) }
{
    let first = word_of(&column.rows.caps, 0);
    let second = word_of(&column.rows.caps, 16);
    let start = column.at;
    let mut bad: u64 = 0;
    let mut seconds: u64 = 0;
    for i in 0..elements.count {
        let place = i * elements.step + start;
        let case = case_at(source, elements.from + place, width);
        bad += u64::from(case >= 2);
        seconds += case;
        let word = if case == 0 { first } else { second };
        put_word(caps, place, word, width);
    }
    if bad > 0 {
        return None;
    }
    let firsts = elements.count as u64 - seconds;
    Some(firsts * u64::from(column.rows.nodes[0]) + seconds * u64::from(column.rows.nodes[1]))
}

/// The same where the element is such a variant of eight bytes, over a slice of its own: so the loop is made into
/// vector code.
#[inline(never)]
fn fill_part(caps: &mut [u8; 2048], column: &Column, part: &[u8], count: usize) -> Option<u64>
    requires wide { column.now.rows.size ≡ 8 }
    requires two { column.now.rows.cases ≡ 2 }
    requires within { column.now.at + 8 ≤ 8 }
    requires few { count ≤ 2048 }
    requires room { count * 8 ≤ 2048 }
    requires inside { count * 8 ≤ length part.now }
    ensures good { IfSome result (λ _. (e : ℕ) → e < count
        → case_in column.now part.now (0 + e * 8) < column.now.rows.cases) }
    ensures caps { IfSome result (λ _. (e j : ℕ) → e < count → j < 8 → get_or caps.new (e * 8 + j) 0
        ≡ laid column.now (case_in column.now part.now (0 + e * 8)) j (get_or caps.old (e * 8 + j) 0)) }
    ensures nodes { IfSome result (λ k. k ≡ columns_seen (column.now ∷ []) 8 part.now 0 count) }
    ensures small { IfSome result (λ k. k ≤ 522240) }
{
    let elements = Strided {
        from: 0,
        step: 8,
        count,
    };
    fill_two(caps, column, 8, part, elements)
}

/// The same of a memory from a place on.
#[inline(always)]
fn fill_pairs(
    caps: &mut [u8; 2048],
    column: &Column,
    source: &[u8],
    from: usize,
    count: usize,
) -> Option<u64>
    requires wide { column.now.rows.size ≡ 8 }
    requires two { column.now.rows.cases ≡ 2 }
    requires within { column.now.at + 8 ≤ 8 }
    requires few { count ≤ 2048 }
    requires room { count * 8 ≤ 2048 }
    requires inside { from + count * 8 ≤ length source.now }
    ensures good { IfSome result (λ _. (e : ℕ) → e < count
        → case_in column.now source.now (from + e * 8) < column.now.rows.cases) }
    ensures caps { IfSome result (λ _. (e j : ℕ) → e < count → j < 8 → get_or caps.new (e * 8 + j) 0
        ≡ laid column.now (case_in column.now source.now (from + e * 8)) j (get_or caps.old (e * 8 + j) 0)) }
    ensures nodes { IfSome result (λ k. k ≡ columns_seen (column.now ∷ []) 8 source.now from count) }
    ensures small { IfSome result (λ k. k ≤ 522240) }
{
    fill_part(caps, column, &source[from..from + count * 8], count)
}

/// The same with the width as a constant where it is a usual one, so that a row is put by a move or two.
#[inline(never)]
pub(crate) fn fill_column(
    caps: &mut [u8; 2048],
    column: &Column,
    source: &[u8],
    elements: Strided,
) -> Option<u64>
    requires some { 0 < column.now.rows.size }
    requires short { column.now.rows.size ≤ 16 }
    requires few_cases { column.now.rows.cases ≤ 16 }
    requires within { column.now.at + column.now.rows.size ≤ elements.step }
    requires few { elements.count ≤ 2048 }
    requires room { elements.count * elements.step ≤ 2048 }
    requires inside { elements.from + elements.count * elements.step ≤ length source.now }
    ensures good { IfSome result (λ _. (e : ℕ) → e < elements.count
        → case_in column.now source.now (elements.from + e * elements.step) < column.now.rows.cases) }
    ensures caps { IfSome result (λ _. (e j : ℕ) → e < elements.count → j < elements.step
        → get_or caps.new (e * elements.step + j) 0
        ≡ laid column.now (case_in column.now source.now (elements.from + e * elements.step)) j
        (get_or caps.old (e * elements.step + j) 0)) }
    ensures nodes { IfSome result (λ k. k
        ≡ columns_seen (column.now ∷ []) elements.step source.now elements.from elements.count) }
    ensures small { IfSome result (λ k. k ≤ 522240) }
{
    match (column.rows.cases, column.rows.size) {
        (2, 8) if elements.step == 8 => fill_pairs(
            caps,
            column,
            source,
            elements.from,
            elements.count,
        ),
        (2, 1) => fill_two(caps, column, 1, source, elements),
        (2, 2) => fill_two(caps, column, 2, source, elements),
        (2, 4) => fill_two(caps, column, 4, source, elements),
        (2, 8) => fill_two(caps, column, 8, source, elements),
        (_, 1) => fill_rows(caps, column, 1, source, elements),
        (_, 2) => fill_rows(caps, column, 2, source, elements),
        (_, 4) => fill_rows(caps, column, 4, source, elements),
        (_, 8) => fill_rows(caps, column, 8, source, elements),
        (_, 12) => fill_rows(caps, column, 12, source, elements),
        (_, 16) => fill_rows(caps, column, 16, source, elements),
        (_, width) => fill_rows(caps, column, width, source, elements),
    }
}
