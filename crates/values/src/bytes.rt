//! Blocks of a memory, and numbers in it, little-endian.
ghost use Rattle.std.specs.Prelude.{◌≡◌, ◌+◌, ◌%◌, ◌^◌, ◌<◌, ◌≤◌, ◌⊎◌, ℕ, List, ◌↔◌, length, get_or, IsTrue, IfErr};
ghost use Rattle.std.specs.Prelude.{OnOk};
ghost use Rattle.std.specs.Int.{w8, w16, w32, w64};
ghost use Rattle.canonical_abi.specs.Layout.{discriminant_size, flags_size};
ghost use Rattle.canonical_abi.specs.Memory.{BlockFaulty};
ghost use Rattle.canonical_abi.specs.Reading.{number_at, byte_width};

use canonical_abi::TrapKind;

/// Whether an address is a multiple of an alignment. Of those that there are each has a constant divisor here, so that
/// nothing is divided.
#[inline(always)]
fn is_aligned(at: usize, align: usize) -> bool
    requires { 0 < align }
    ensures { IsTrue result ↔ (at % align ≡ 0) }
{
    match align {
        1 => true,
        2 => at % 2 == 0,
        4 => at % 4 == 0,
        8 => at % 8 == 0,
        _ => at % align == 0,
    }
}

/// Tests the alignment of a block of a memory of `len` bytes, then its end.
pub fn test_block(len: usize, at: usize, align: usize, size: usize) -> Result<(), TrapKind>
    requires aligned { 0 < align }
    requires fits { at + size < 2 ^ 64 }
    ensures ok { OnOk result ((at % align ≡ 0) × (at + size ≤ len)) }
    ensures fault { IfErr result (λ k. (m : List ℕ) → length m ≡ len → BlockFaulty m at align size k) }
{
    if !is_aligned(at, align) {
        return Err(TrapKind::Align);
    }
    if at + size > len {
        return Err(TrapKind::Bounds);
    }
    Ok(())
}

/// The largest byte, or 0 of none. By itself, over a slice of its own, this loop is made into vector code.
#[inline(never)]
pub fn largest_byte(bytes: &[u8]) -> u8
    ensures { (i : ℕ) → get_or bytes.now i 0 ≤ result }
{
    let mut largest = 0;
    for i in 0..bytes.len() {
        largest = largest.max(bytes[i]);
    }
    largest
}

#[tactic(auto, unfolding(canonical_abi::specs::Reading::number_at))]
pub fn u8_at(memory: &[u8], at: usize) -> u8
    requires { at + 1 ≤ length memory.now }
    ensures { result ≡ number_at memory.now at w8 }
{
    memory[at]
}

#[tactic(auto, unfolding(canonical_abi::specs::Reading::number_at))]
pub fn u16_at(memory: &[u8], at: usize) -> u16
    requires { at + 2 ≤ length memory.now }
    ensures { result ≡ number_at memory.now at w16 }
{
    u16::from_le_bytes([memory[at], memory[at + 1]])
}

#[tactic(auto, unfolding(canonical_abi::specs::Reading::number_at))]
pub fn u32_at(memory: &[u8], at: usize) -> u32
    requires { at + 4 ≤ length memory.now }
    ensures { result ≡ number_at memory.now at w32 }
{
    u32::from_le_bytes([memory[at], memory[at + 1], memory[at + 2], memory[at + 3]])
}

#[tactic(auto, unfolding(canonical_abi::specs::Reading::number_at))]
pub fn u64_at(memory: &[u8], at: usize) -> u64
    requires { at + 8 ≤ length memory.now }
    ensures { result ≡ number_at memory.now at w64 }
{
    let low = u32_at(memory, at);
    let high = u32_at(memory, at + 4);
    u64::from(high) << 32 | u64::from(low)
}

/// The number of a discriminant or of flags, which has 1, 2 or 4 bytes.
pub fn number_of_size(memory: &[u8], at: usize, size: usize) -> u32
    requires inside { at + size ≤ length memory.now }
    requires known { (size ≡ 1) ⊎ ((size ≡ 2) ⊎ (size ≡ 4)) }
    ensures { result ≡ number_at memory.now at (byte_width size) }
{
    match size {
        1 => u32::from(u8_at(memory, at)),
        2 => u32::from(u16_at(memory, at)),
        _ => u32_at(memory, at),
    }
}

/// The bytes of a discriminant of so many cases.
pub fn discriminant_bytes(cases: usize) -> usize
    ensures value { result ≡ discriminant_size cases }
    ensures known { (result ≡ 1) ⊎ ((result ≡ 2) ⊎ (result ≡ 4)) }
{
    if cases <= 256 {
        1
    } else if cases <= 65536 {
        2
    } else {
        4
    }
}

/// The bytes of flags of so many labels.
pub fn flags_bytes(labels: usize) -> usize
    ensures value { result ≡ flags_size labels }
    ensures known { (result ≡ 1) ⊎ ((result ≡ 2) ⊎ (result ≡ 4)) }
{
    if labels <= 8 {
        1
    } else if labels <= 16 {
        2
    } else {
        4
    }
}

/// The low bits of a number: as many as there are labels.
pub fn low_flags(bits: u32, labels: usize) -> u32
    ensures { result ≡ bits % 2 ^ labels }
{
    if labels < 32 {
        bits % (1 << labels)
    } else {
        bits
    }
}
