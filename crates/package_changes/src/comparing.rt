//! Two types compared, through names and at each place in them.
ghost use Rattle.std.specs.Prelude.{◌≡◌, IfOk, IsTrue, length};
ghost use Rattle.std.specs.Option.{option_map};
ghost use Rattle.canonical_abi.specs.Labelled.{labelled_prim, labelled_record, labelled_string};
ghost use Rattle.tables.specs.declared.tables.Resolve.{Resolve};
ghost use Rattle.tables.specs.declared.tables.ValType.{ValType};
ghost use Rattle.tables.specs.Closed.{prim_of, closed_type};
ghost use Rattle.tables.specs.Labelled.{labelled_type, labelled_types, labelled_kind, labelled_params};
ghost use Rattle.tables.specs.Standard.{IsTypeOf};
ghost use Rattle.tables.specs.Tables.{is_type_id, is_type, is_below, kind_all, option_all};
ghost use Rattle.package_changes.specs.Likeness.{is_same_prim, likeness, have_one_layout, are_same_carriers};
ghost use Rattle.package_changes.specs.Alike.{fits, part_likeness, parts_likeness};
ghost use Rattle.package_changes.specs.Forms.{family};
ghost use Rattle.package_changes.specs.Comparing.{AreParametersOf, AreParts, AreRight, AreTyped, IsEndOf, IsOwnKind, part_types, type_at};

use crate::edition::Edition;
use crate::known::{Known, TypePair};
use crate::likeness::Likeness;
use crate::type_nodes::{Family, Node};
use layout::Kinds;
use std::alloc::{AllocError, Global};
use tables::{Definition, Parameter, Primitive, Resolve, TypeDefKind, TypeId, ValType};

/// What a type is in the end, after all names for other types.
#[derive(Clone, Copy)]
pub enum End<'a> {
    Primitive(Primitive),
    String,
    /// A type with parts: its place in the table, and what it is.
    Node(u32, &'a TypeDefKind),
}

/// What the type at this place is.
fn kind_of(table: &Resolve, id: TypeId) -> &TypeDefKind
    requires { IsTrue (is_type_id table.now.definitions id) }
    ensures is { labelled_type table.now (ValType.Id id) ≡ labelled_kind (labelled_types table.now) result.now }
    ensures below { IsTrue (kind_all (is_below id.0) result.now) }
    ensures typed { IsTrue (kind_all (is_type table.now.definitions) result.now) }
{
    match &table.definitions.as_slice()[id.0 as usize] {
        Definition::Type(definition) => &definition.kind,
        Definition::Function(_) => unreachable!(),
    }
}

/// What a type is in the end.
fn end_of(table: &Resolve, ty: ValType) -> End<'_>
    requires { IsTypeOf table.now ty }
    ensures { IsEndOf table.now ty result }
{
    let mut named = ty;
    loop {
        let id = match named {
            ValType::Primitive(primitive) => return End::Primitive(primitive),
            ValType::String => return End::String,
            ValType::Id(id) => id,
        };
        let kind = kind_of(table, id);
        match kind {
            TypeDefKind::Use(target) => named = ValType::Id(*target),
            TypeDefKind::Alias(target) => named = *target,
            _ => return End::Node(id.0, kind),
        }
    }
}

fn is_same_primitive(one: Primitive, other: Primitive) -> bool
    ensures { result ≡ is_same_prim (prim_of one) (prim_of other) }
{
    one == other
}

/// How alike a primitive and a newer type are.
fn compare_primitive(primitive: Primitive, newer: End<'_>) -> Likeness
    ensures { (s : Resolve) (w : ValType) → IsEndOf s w newer.entry
        → result ≡ likeness (labelled_prim (prim_of primitive)) (labelled_type s w) }
{
    match newer {
        End::Primitive(other) => Likeness::of_leaves(is_same_primitive(primitive, other)),
        End::String => Likeness::of_leaves(false),
        End::Node(_, _) => Likeness::of_leaves(false),
    }
}

/// How alike string and a newer type are.
fn compare_string(newer: End<'_>) -> Likeness
    ensures { (s : Resolve) (w : ValType) → IsEndOf s w newer.entry
        → result ≡ likeness labelled_string (labelled_type s w) }
{
    match newer {
        End::Primitive(_) => Likeness::of_leaves(false),
        End::String => Likeness::of_leaves(true),
        End::Node(_, _) => Likeness::of_leaves(false),
    }
}

fn are_same_carriers(kinds: &Kinds, others: &Kinds) -> bool
    ensures { result ≡ are_same_carriers kinds.now others.now }
{
    match (kinds, others) {
        (Kinds::Flat(kinds), Kinds::Flat(others)) => kinds.as_slice() == others.as_slice(),
        (Kinds::Spilled, Kinds::Spilled) => true,
        _ => false,
    }
}

/// Compares types of an older table with those of a newer one.
#[derive(Clone, Copy)]
pub struct Comparer<'a> {
    pub(crate) alloc: Global,
    pub(crate) old: Edition<'a>,
    pub(crate) new: Edition<'a>,
}

impl Comparer<'_> {
    /// Whether two types take the same room, and go by the same core values.
    fn have_one_layout(&self, pair: TypePair) -> bool
        requires old { IsTypeOf self.now.old.table.now (type_at pair.old) }
        requires new { IsTypeOf self.now.new.table.now (type_at pair.new) }
        ensures { result ≡ have_one_layout (closed_type self.now.old.table.now (type_at pair.old))
            (closed_type self.now.new.table.now (type_at pair.new)) }
    {
        let (old, new) = (pair.older(), pair.newer());
        let (layouts, others) = (self.old.layouts, self.new.layouts);
        layouts.size(old) == others.size(new)
            && layouts.align(old) == others.align(new)
            && are_same_carriers(&layouts.flat(&[old]), &others.flat(&[new]))
    }

    /// Whether two types have one layout, or are no variants.
    fn fit(&self, node: &Node, pair: TypePair) -> bool
        requires old { IsTypeOf self.now.old.table.now (type_at pair.old) }
        requires new { IsTypeOf self.now.new.table.now (type_at pair.new) }
        ensures { result ≡ fits (family node.now.spelling) (closed_type self.now.old.table.now (type_at pair.old))
            (closed_type self.now.new.table.now (type_at pair.new)) }
    {
        match node.spelling.family() {
            Family::Variant => self.have_one_layout(pair),
            Family::List => true,
            Family::Record => true,
            Family::Flags => true,
        }
    }

    /// How alike two types are.
    #[cycle(comparing)]
    pub(crate) fn compare(
        &self,
        known: &mut Known,
        old: ValType,
        new: ValType,
    ) -> Result<Likeness, AllocError>
        requires old { IsTypeOf self.now.old.table.now old }
        requires new { IsTypeOf self.now.new.table.now new }
        requires right { AreRight self.now.old.table.now self.now.new.table.now known.old }
        ensures ok { IfOk result (λ l. l ≡ likeness (labelled_type self.now.old.table.now old)
            (labelled_type self.now.new.table.now new)) }
        ensures right { AreRight self.now.old.table.now self.now.new.table.now known.new }
    {
        let newer = end_of(self.new.table, new);
        match end_of(self.old.table, old) {
            End::Primitive(primitive) => Ok(compare_primitive(primitive, newer)),
            End::String => Ok(compare_string(newer)),
            End::Node(id, kind) => match newer {
                End::Node(other, other_kind) => {
                    let pair = TypePair {
                        old: id,
                        new: other,
                    };
                    self.compare_pair(known, pair, kind, other_kind)
                }
                End::Primitive(_) => Ok(Likeness::of_leaves(false)),
                End::String => Ok(Likeness::of_leaves(false)),
            },
        }
    }

    /// How alike two types with parts are, which are of these kinds.
    #[cycle(comparing)]
    fn compare_pair(
        &self,
        known: &mut Known,
        pair: TypePair,
        kind: &TypeDefKind,
        other: &TypeDefKind,
    ) -> Result<Likeness, AllocError>
        requires old { IsOwnKind self.now.old.table.now pair.old kind.now }
        requires new { IsOwnKind self.now.new.table.now pair.new other.now }
        requires right { AreRight self.now.old.table.now self.now.new.table.now known.old }
        ensures ok { IfOk result (λ l. l ≡ likeness (labelled_type self.now.old.table.now (type_at pair.old))
            (labelled_type self.now.new.table.now (type_at pair.new))) }
        ensures right { AreRight self.now.old.table.now self.now.new.table.now known.new }
    {
        if let Some(likeness) = known.get(pair) {
            return Ok(likeness);
        }
        let likeness = self.compare_kinds(known, pair, kind, other)?;
        known.put(pair, likeness)?;
        Ok(likeness)
    }

    #[cycle(comparing)]
    fn compare_kinds(
        &self,
        known: &mut Known,
        pair: TypePair,
        kind: &TypeDefKind,
        other: &TypeDefKind,
    ) -> Result<Likeness, AllocError>
        requires old { IsOwnKind self.now.old.table.now pair.old kind.now }
        requires new { IsOwnKind self.now.new.table.now pair.new other.now }
        requires right { AreRight self.now.old.table.now self.now.new.table.now known.old }
        ensures ok { IfOk result (λ l. l ≡ likeness (labelled_type self.now.old.table.now (type_at pair.old))
            (labelled_type self.now.new.table.now (type_at pair.new))) }
        ensures right { AreRight self.now.old.table.now self.now.new.table.now known.new }
    {
        let old = Node::of(self.alloc, kind)?;
        let new = Node::of(self.alloc, other)?;
        if !old.is_one_family(&new) {
            return Ok(Likeness::of_leaves(false));
        }
        let place = pair.old as usize;
        let parts = self.compare_parts(known, place, old.parts.as_slice(), new.parts.as_slice())?;
        let fits = self.fit(&old, pair);
        Ok(old.whole(&new, parts, fits))
    }

    /// How alike types at the same places are, as far as both have some.
    #[cycle(comparing)]
    pub(crate) fn compare_parts(
        &self,
        known: &mut Known,
        _place: usize,
        parts: &[Option<ValType>],
        others: &[Option<ValType>],
    ) -> Result<Likeness, AllocError>
        requires old { AreParts self.now.old.table.now _place parts.now }
        requires new { AreTyped self.now.new.table.now others.now }
        requires right { AreRight self.now.old.table.now self.now.new.table.now known.old }
        ensures ok { IfOk result (λ l. l ≡ parts_likeness (part_types self.now.old.table.now parts.now)
            (part_types self.now.new.table.now others.now)) }
        ensures right { AreRight self.now.old.table.now self.now.new.table.now known.new }
    {
        let mut all = Likeness::of_leaves(true);
        for (i, part) in parts.iter().enumerate() {
            if i >= others.len() {
                return Ok(all);
            }
            let here = self.compare_part(known, *part, others[i])?;
            all = all.and(here);
        }
        Ok(all)
    }

    #[cycle(comparing)]
    pub(crate) fn compare_part(
        &self,
        known: &mut Known,
        part: Option<ValType>,
        other: Option<ValType>,
    ) -> Result<Likeness, AllocError>
        requires old { IsTrue (option_all (is_type self.now.old.table.now.definitions) part) }
        requires new { IsTrue (option_all (is_type self.now.new.table.now.definitions) other) }
        requires right { AreRight self.now.old.table.now self.now.new.table.now known.old }
        ensures ok { IfOk result (λ l. l ≡ part_likeness (option_map (labelled_type self.now.old.table.now) part)
            (option_map (labelled_type self.now.new.table.now) other)) }
        ensures right { AreRight self.now.old.table.now self.now.new.table.now known.new }
    {
        match part {
            None => Ok(Likeness::of_leaves(other.is_none())),
            Some(ty) => match other {
                None => Ok(Likeness::of_leaves(false)),
                Some(other) => self.compare(known, ty, other),
            },
        }
    }

    /// How alike the parameters of two functions are, as records.
    pub(crate) fn compare_parameters(
        &self,
        known: &mut Known,
        parameters: &[Parameter],
        others: &[Parameter],
    ) -> Result<Likeness, AllocError>
        requires old { AreParametersOf self.now.old.table.now parameters.now }
        requires new { AreParametersOf self.now.new.table.now others.now }
        requires right { AreRight self.now.old.table.now self.now.new.table.now known.old }
        ensures ok { IfOk result (λ l. l ≡ likeness
            (labelled_record (labelled_params (labelled_types self.now.old.table.now) parameters.now))
            (labelled_record (labelled_params (labelled_types self.now.new.table.now) others.now))) }
        ensures right { AreRight self.now.old.table.now self.now.new.table.now known.new }
    {
        let old = Node::of_parameters(self.alloc, parameters)?;
        let new = Node::of_parameters(self.alloc, others)?;
        let place = self.old.table.definitions.len();
        let parts = self.compare_parts(known, place, old.parts.as_slice(), new.parts.as_slice())?;
        Ok(old.whole(&new, parts, true))
    }
}
