//! A whole component type binary.
ghost use Rattle.std.specs.Prelude.{◌≡◌, [], IfOk, IfErr, MatchResult};
ghost use Rattle.ctype_format.specs.Raw.{BinaryFile};
ghost use Rattle.ctype_format.specs.View.{parts_file};
ghost use Rattle.ctype_format.specs.Writing.{file_bytes};
ghost use Rattle.ctype_bin.specs.Encoding.{AppendsSpelling};
ghost use Rattle.ctype_format.specs.Formed.{FormedFile};
ghost use Rattle.ctype_bin.specs.Spellable.{IsSpellable};
ghost use Rattle.ctype_bin.specs.Parts.{ComponentRefuses};
ghost use Rattle.ctype_bin.specs.Accepted.{IsAccepted};

use crate::encoding::spelling;
use crate::sections::parts_of;
use ctype_format::{BinError, ItemError, RawExport, RawType, Stuck};
use std::alloc::{AllocError, Global};

/// A component type binary's type section and export section. Some bytes spell it: its indices are in range at their
/// places, its names are well formed, and its counts and nesting keep the limits.
#[derive(Drop)]
pub struct RawComponent {
    types: Vec<RawType>,
    exports: Vec<RawExport>,
    ghost spellable: { ∥ IsSpellable (parts_file types exports) ∥₁ },
}

impl RawComponent {
    /// A component of these parts, exactly where bytes of some length spell it, as some do where validation accepts the
    /// parts. Else the first fault in the order of the bytes, with place 0: 13 with `03` for an import in an instance
    /// type, 15, 16 or 17; 21 where memory is wanting. The length of 1,048,576 bytes is no limit here. (Binary.md)
    pub fn new(
        alloc: Global,
        types: Vec<RawType>,
        exports: Vec<RawExport>,
    ) -> Result<RawComponent, BinError>
        ensures types { IfOk result (λ c. c.types ≡ types) }
        ensures exports { IfOk result (λ c. c.exports ≡ exports) }
        ensures only { IsSpellable (parts_file types exports)
            → MatchResult result (λ _. Unit {0}) (λ e. e ≡ BinError.NoMemory) }
        ensures accepted { IsAccepted (parts_file types exports)
            → MatchResult result (λ _. Unit {0}) (λ e. e ≡ BinError.NoMemory) }
        ensures err { IfErr result (λ e. ComponentRefuses (parts_file types exports) e) }
    {
        let Ok(bytes) = spelling(alloc, types.as_slice(), exports.as_slice()) else {
            return Err(BinError::NoMemory);
        };
        reread(alloc, bytes.as_slice())?;
        Ok(RawComponent::of(types, exports))
    }

    /// A component of parts that validation accepts, and the shortest bytes that spell it, which `decode` reads as it
    /// where there are no more than 1,048,576. No memory, too, where a section would have 2^32 bytes or more.
    /// (Binary.md)
    pub fn with_bytes(
        alloc: Global,
        types: Vec<RawType>,
        exports: Vec<RawExport>,
    ) -> Result<(RawComponent, Vec<u8>), AllocError>
        requires { IsAccepted (parts_file types exports) }
        ensures types { IfOk result (λ x. x.0.types ≡ types) }
        ensures exports { IfOk result (λ x. x.0.exports ≡ exports) }
        ensures spelling { IfOk result (λ x. ∥ AppendsSpelling [] x.1.items (parts_file types exports) ∥₁) }
        ensures exact { IfOk result (λ x. x.1.items ≡ file_bytes (parts_file types exports)) }
    {
        let bytes = spelling(alloc, types.as_slice(), exports.as_slice())?;
        Ok((RawComponent::of(types, exports), bytes))
    }

    /// A component that is spelled.
    pub(crate) fn of(types: Vec<RawType>, exports: Vec<RawExport>) -> RawComponent
        requires { ∥ IsSpellable (parts_file types exports) ∥₁ }
        ensures types { result.types ≡ types }
        ensures exports { result.exports ≡ exports }
    {
        RawComponent { types, exports }
    }

    /// The type section's definitions.
    pub fn types(&self) -> &[RawType]
        ensures { result.now ≡ self.now.types.items }
    {
        self.types.as_slice()
    }

    /// The export section.
    pub fn exports(&self) -> &[RawExport]
        ensures { result.now ≡ self.now.exports.items }
    {
        self.exports.as_slice()
    }
}

/// Reads what was written of a component's parts, and so finds the first fault in them, which has no place.
fn reread(alloc: Global, bytes: &[u8]) -> Result<(), BinError>
    requires { (f : BinaryFile) × (bytes.now ≡ file_bytes f) × FormedFile f }
    ensures { (f : BinaryFile) → bytes.now ≡ file_bytes f → FormedFile f
        → MatchResult result (λ _. ∥ IsSpellable f ∥₁) (λ e. ComponentRefuses f e) }
{
    match parts_of(alloc, bytes) {
        Ok(_) => Ok(()),
        Err(ItemError::Memory) => Err(BinError::NoMemory),
        Err(ItemError::Stuck(Stuck::At(fault, _))) => Err(BinError::At(fault, 0)),
        Err(ItemError::Stuck(Stuck::End)) => unreachable!(),
        Err(ItemError::Stuck(Stuck::Past(_))) => unreachable!(),
    }
}
