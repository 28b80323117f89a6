//! What holds of the format, whatever the bytes.
ghost use Rattle.std.specs.Prelude.{◌≡◌, ◌≤◌, ℕ, List, length};
ghost use Rattle.ctype_format.specs.declared.scope.Scope.{Scope};
ghost use Rattle.ctype_bin.specs.Exactness.{IsBytes, ExactBytes, ExactToEnd, Written};
ghost use Rattle.ctype_format.specs.Writing.{type_bytes, file_bytes};
ghost use Rattle.ctype_format.specs.Raw.{BinaryFile};
ghost use Rattle.ctype_format.specs.Grammar.{type};
ghost use Rattle.ctype_format.specs.File.{component_file, max_length, FaultyBinary};
ghost use Rattle.ctype_bin.specs.FileView.{raw_component_view};
ghost use Rattle.ctype_bin.specs.InRange.{FileInRange};

use crate::component::RawComponent;
use ctype_format::{BinError, Fault};

/// Reading a type finds just what its productions spell, or the first fault, which stands within the bytes.
pub fn types_are_read_exactly()
    ensures { (depth : ℕ) (around : List ℕ) (scope : Scope) → ExactBytes (type depth around scope) }
{}

/// The same of a whole file.
pub fn files_are_read_exactly()
    ensures { ExactToEnd component_file }
{}

/// The first fault of bytes is the only one, with its place, and bytes that spell a file have none.
pub fn faults_are_first()
    ensures one { (bytes : List ℕ) (f g : Fault) (m n : ℕ) → IsBytes bytes
        → FaultyBinary bytes (BinError.At f m) → FaultyBinary bytes (BinError.At g n) → (f ≡ g) × (m ≡ n) }
    ensures spelled { (bytes : List ℕ) (x : BinaryFile) (f : Fault) (n : ℕ) → IsBytes bytes → length bytes ≤ max_length
        → component_file.spells bytes x → FaultyBinary bytes (BinError.At f n) → ⊥ }
{}

/// What is written of a type spells it where any bytes do, and is no longer; and what is written of a file spells it
/// where any bytes do.
pub fn spellings_are_rewritten()
    ensures types { (depth : ℕ) (around : List ℕ) (scope : Scope)
        → Written (type depth around scope) (λ y. type_bytes y.0) }
    ensures files { (bytes : List ℕ) (f : BinaryFile) → component_file.spells bytes f
        → component_file.spells (file_bytes f) f }
{}

/// Each index of a file that is spelled is below the count of its space where it stands, and so is each index of a
/// component.
pub fn indices_are_in_range()
    ensures files { (bytes : List ℕ) (f : BinaryFile) → component_file.spells bytes f → FileInRange f }
    ensures components { (c : RawComponent) → FileInRange (raw_component_view c) }
{}
