//! Packages that use each other: the last of them, opened behind those before it.

ghost use Rattle.std.specs.Prelude.{◌≡◌, ◌<◌, true, false, length, IfOk, OnOk, IfErr, MatchResult};
ghost use Rattle.opening.specs.Opening.{IsOpened, IsWantOfMemory, OpenRefuses};
ghost use Rattle.opening.specs.Sets.{all_bytes, is_binary, AddsMember, MemberRefuses, IsSetOf, FirstRefused};
ghost use Rattle.package_sets.specs.Attached.{HasRoom};
ghost use Rattle.tables.specs.Same.{IsSamePackage};
ghost use Rattle.tables.specs.declared.tables.Resolve.{Resolve};

use crate::binary::is_binary;
use crate::package::{OpenError, Package};
use crate::text::text_of;
use ctype_bin::decode;
use package_adding::PackageSet;
use std::alloc::Global;
use tables::Resolve;
use wit_text::parse;

/// Adds the package of a text to a set.
fn add_text(alloc: Global, set: &mut PackageSet, bytes: &[u8]) -> Result<(), OpenError>
    requires room { HasRoom set.old.resolve }
    requires text { is_binary bytes.now ≡ false }
    ensures ok { OnOk result ((closed : Resolve) × AddsMember set.old.resolve bytes.now closed set.new.resolve) }
    ensures only { (closed r : Resolve) → AddsMember set.old.resolve bytes.now closed r
        → MatchResult result (λ _. IsSamePackage set.new.resolve r) IsWantOfMemory }
    ensures err { IfErr result (MemberRefuses set.old.resolve bytes.now) }
{
    let text = text_of(bytes)?;
    let ast = parse(alloc, text)?;
    set.add_ast(alloc, &ast)?;
    Ok(())
}

/// .. of a binary.
fn add_binary(alloc: Global, set: &mut PackageSet, bytes: &[u8]) -> Result<(), OpenError>
    requires room { HasRoom set.old.resolve }
    requires binary { is_binary bytes.now ≡ true }
    ensures ok { OnOk result ((closed : Resolve) × AddsMember set.old.resolve bytes.now closed set.new.resolve) }
    ensures only { (closed r : Resolve) → AddsMember set.old.resolve bytes.now closed r
        → MatchResult result (λ _. IsSamePackage set.new.resolve r) IsWantOfMemory }
    ensures err { IfErr result (MemberRefuses set.old.resolve bytes.now) }
{
    let raw = decode(alloc, bytes)?;
    set.add_raw(alloc, &raw)?;
    Ok(())
}

/// Adds the package of a text or of a binary to a set.
fn add_member(alloc: Global, set: &mut PackageSet, bytes: &[u8]) -> Result<(), OpenError>
    ensures ok { OnOk result ((closed : Resolve) × AddsMember set.old.resolve bytes.now closed set.new.resolve) }
    ensures only { (closed r : Resolve) → AddsMember set.old.resolve bytes.now closed r
        → MatchResult result (λ _. IsSamePackage set.new.resolve r) IsWantOfMemory }
    ensures err { IfErr result (MemberRefuses set.old.resolve bytes.now) }
{
    set.has_room()?;
    if is_binary(bytes) {
        add_binary(alloc, set, bytes)
    } else {
        add_text(alloc, set, bytes)
    }
}

/// These packages as a set, each behind those before it.
fn set_of(alloc: Global, inputs: &[&[u8]]) -> Result<PackageSet, OpenError>
    ensures ok { IfOk result (λ s. IsSetOf (all_bytes inputs.now) s.resolve) }
    ensures only { (r : Resolve) → IsSetOf (all_bytes inputs.now) r
        → MatchResult result (λ s. IsSamePackage s.resolve r) IsWantOfMemory }
    ensures err { IfErr result (FirstRefused (all_bytes inputs.now)) }
{
    let mut set = PackageSet::new(alloc);
    for bytes in inputs {
        add_member(alloc, &mut set, bytes)?;
    }
    Ok(set)
}

/// Opens the last of these packages, each of which may use interfaces of those before it. Its table is the set's, so
/// the functions of all packages are found and called. Bytes that begin `00 61 73 6d` are a binary, others a text. The
/// first that is refused is told of, and 49 comes before all else, where 64 stand before it. A text's length comes next
/// (36), then whether it is UTF-8 (60), its own refusals (30 to 35), 43, 48 where an earlier one has its name, and 40,
/// 47, 41, 42 and 45, where a path means an interface of an earlier package. Of a binary its own refusals come next (10
/// to 19, 22, 23), then 43, 44 and 40, 48, 47 where it imports from a package that isn't there, and 44 where its
/// imports aren't just those of the earlier packages, in their order. The layouts of all packages come behind all: 51
/// and 50, of the first definition. What is written of a package is opened as the same package behind the same packages
/// (`laws::written_opens_again`).
pub fn open_set(alloc: Global, inputs: &[&[u8]]) -> Result<Package, OpenError>
    requires some { 0 < length inputs.now }
    ensures ok { IfOk result (λ p. IsOpened (all_bytes inputs.now) p.resolve) }
    ensures only { (r : Resolve) → IsOpened (all_bytes inputs.now) r
        → MatchResult result (λ p. IsSamePackage p.resolve r) IsWantOfMemory }
    ensures err { IfErr result (OpenRefuses (all_bytes inputs.now)) }
{
    let set = set_of(alloc, inputs)?;
    Ok(Package::of_set(alloc, set.into_resolve())?)
}
