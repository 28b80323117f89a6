//! Core values as C has them.
ghost use Rattle.std.specs.Prelude.{◌≡◌, ◌↔◌, ◌≤◌, [], drop, length, map, IsTrue};
ghost use Rattle.host_calls.specs.Values.{flat_of, core_value_of, HoldsFlats};

use arrayvec::ArrayVec;
use canonical_abi::Flat;

/// The most core values that a core function takes.
pub const MAX_VALUES: usize = 17;

/// A core value: an i32, the low 32 bits of `bits`, if `kind` is 0, and otherwise an i64. Values that the library tells
/// have the kind 0 or 1, and the upper half of an i32 is 0.
#[repr(C)]
#[derive(Clone, Copy, Debug)]
pub struct Value {
    pub kind: u32,
    pub bits: u64,
}

impl Value {
    /// The value as a flat value.
    pub fn flat(self) -> Flat
        ensures { result ≡ flat_of self }
    {
        if self.kind == 0 {
            Flat::I32((self.bits % 4_294_967_296) as u32)
        } else {
            Flat::I64(self.bits)
        }
    }

    /// A flat value as C has it.
    pub fn of(flat: Flat) -> Value
        ensures { result ≡ core_value_of flat }
    {
        match flat {
            Flat::I32(number) => Value {
                kind: 0,
                bits: u64::from(number),
            },
            Flat::I64(bits) => Value { kind: 1, bits },
        }
    }
}

/// Puts the core values as flat values where there were none; whether there is room for them.
pub fn put_flats<const CAP: usize>(values: &[Value], flats: &mut ArrayVec<Flat, CAP>) -> bool
    requires empty { flats.old.items ≡ [] }
    ensures flats { IsTrue result → flats.new.items ≡ map flat_of values.now }
    ensures few { IsTrue result ↔ (length values.now ≤ CAP) }
{
    if values.len() > CAP {
        return false;
    }
    for value in values {
        flats.push(value.flat());
    }
    true
}

/// Tells these flat values at the front of an array that has room for them; what stands behind them is left.
pub fn tell(flats: &[Flat], out: &mut [Value])
    requires { length flats.now ≤ length out.old }
    ensures told { HoldsFlats out.new flats.now }
    ensures rest { drop (length flats.now) out.new ≡ drop (length flats.now) out.old }
{
    for (place, flat) in flats.iter().enumerate() {
        out[place] = Value::of(*flat);
    }
}

/// Tells these core values at the front of an array that has room for them, each as the library tells it; what stands
/// behind them is left.
pub(crate) fn tell_values(values: &[Value], out: &mut [Value])
    requires { length values.now ≤ length out.old }
    ensures told { HoldsFlats out.new (map flat_of values.now) }
    ensures rest { drop (length values.now) out.new ≡ drop (length values.now) out.old }
{
    for (place, value) in values.iter().enumerate() {
        out[place] = Value::of(value.flat());
    }
}
