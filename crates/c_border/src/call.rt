//! A call between its halves, as a host in C keeps it.
ghost use Rattle.std.specs.Prelude.{◌≡◌, ◌≤◌, length};
ghost use Rattle.c_border.specs.CallObject.{KeepsValues, flats_of};

use host_calls::{MAX_VALUES, Value};

/// The number of the function that is called, and the core values of the call: the first `count` of `flats`.
#[repr(C)]
#[derive(Drop)]
pub struct Call {
    func: u32,
    count: u32,
    flats: [Value; MAX_VALUES],
}

impl Call {
    /// Keeps the core values of a call.
    pub fn keep(&mut self, func: u32, flats: &[Value])
        requires { length flats.now ≤ 17 }
        ensures { KeepsValues func flats.now self.new }
    {
        self.func = func;
        self.count = flats.len() as u32;
        self.flats[..flats.len()].copy_from_slice(flats);
    }

    /// The number of the function.
    pub fn func(&self) -> u32
        ensures { result ≡ self.now.func }
    {
        self.func
    }

    /// The core values.
    pub fn flats(&self) -> &[Value]
        ensures { result.now ≡ flats_of self.now }
    {
        let count = (self.count as usize).min(MAX_VALUES);
        &self.flats[..count]
    }
}
