//! The binary of a package.

ghost use Rattle.std.specs.Prelude.{◌≡◌, ◌⊎◌, true, IfOk, IfErr};
ghost use Rattle.opening.specs.Opening.{AreBytesOf, IsWrittenAs, IsTooLong};
ghost use Rattle.opening.specs.Sets.{is_binary};

use crate::package::{MAX_INPUT, Package};
use ctype_bin::{BinError, Fault};
use std::alloc::Global;
use wit_component::component_with_bytes;

/// The bytes that a binary begins with.
static FRONT: [u8; 4] = [0x00, 0x61, 0x73, 0x6d];

/// Whether the bytes begin as a binary does.
pub fn is_binary(bytes: &[u8]) -> bool
    ensures { result ≡ is_binary bytes.now }
{
    bytes.starts_with(FRONT.as_slice())
}

impl Package {
    /// The binary of the package, the shortest, which begins with the interfaces that it reaches of those before it:
    /// bytes that are opened as the same package behind the same packages. 17 at 1,048,576 where they would be more
    /// than that; 21 where memory is wanting. (Binary.md)
    pub fn to_binary(&self, alloc: Global) -> Result<Vec<u8>, BinError>
        ensures written { IfOk result (λ bytes. ∥ IsWrittenAs bytes.items self.now.resolve ∥₁) }
        ensures begins { IfOk result (λ bytes. is_binary bytes.items ≡ true) }
        ensures exact { IfOk result (λ bytes. AreBytesOf self.now.resolve bytes.items) }
        ensures err { IfErr result (λ e. (e ≡ BinError.NoMemory) ⊎ IsTooLong self.now.resolve e) }
    {
        let Ok(last) = self.last(alloc) else {
            return Err(BinError::NoMemory);
        };
        let Ok((_, bytes)) = component_with_bytes(alloc, last.table()) else {
            return Err(BinError::NoMemory);
        };
        if bytes.len() > MAX_INPUT {
            return Err(BinError::At(Fault::Limit, MAX_INPUT));
        }
        Ok(bytes)
    }
}
