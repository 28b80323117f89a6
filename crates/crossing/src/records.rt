//! Elements that are records of numbers, texts and lists of numbers: their members are looked at once, and not for each
//! element.
ghost use Rattle.std.specs.Prelude.{◌≡◌, [], ◌∷◌, ◌+◌, ◌*◌, ◌^◌, ◌<◌, ◌≤◌, length, IfSome};
ghost use Rattle.canonical_abi.specs.Types.{record_type, record_fields, field_count};
ghost use Rattle.canonical_abi.specs.Layout.{size, end_from, field_extents};
ghost use Rattle.crossing.specs.Outcome.{Walks, FieldsWalk, EachWalks, Ends};
ghost use Rattle.crossing.specs.Steps.{IsLeaf, leaf_type, AreSteps, AreStepsOf};
ghost use Rattle.values.specs.Types.{IsInside};
ghost use Rattle.tables.specs.Closed.{closed_type};

use crate::addresses::Addresses;
use crate::leaves::{cross_flags, cross_primitive, cross_text};
use crate::lists::{cross_list, listed_number};
use crate::stopped::Stopped;
use crate::walk::{Walk, aligned, are_bytes};
use arrayvec::ArrayVec;
use canonical_abi::Guest;
use layout::Shape;
use lift_lower::Types;
use lift_lower::nodes::Members;
use ranges::Elements;
use tables::{Primitive, ValType};

/// The most members of a record that has steps.
const MOST: usize = 16;

/// What a member of such a record is.
#[derive(Clone, Copy, Default)]
pub(crate) enum Leaf {
    /// A primitive other than string.
    Scalar(Primitive),
    /// Flags of so many labels.
    Flags(usize),
    #[default]
    Text,
    /// A list of numbers.
    Numbers(Primitive),
}

/// A member of such a record: what it is, and how many bytes of the record come before it.
#[derive(Clone, Copy, Default)]
pub(crate) struct Step {
    pub leaf: Leaf,
    pub place: usize,
}

/// A record, and its members in turn.
#[derive(Drop)]
pub(crate) struct Steps {
    pub ty: ValType,
    pub list: ArrayVec<Step, 16>,
}

/// A record of two members, each of which is a step.
#[derive(Clone, Copy)]
struct Pair {
    ty: ValType,
    first: Step,
    second: Step,
}

/// What a type is as a member, if it can be a step.
fn leaf_of(table: &Types, ty: ValType) -> Option<Leaf>
    requires { IsInside table.now ty }
    ensures { IfSome result (λ leaf. IsLeaf leaf × (closed_type table.now ty ≡ leaf_type leaf)) }
{
    match table.shape_of(ty) {
        Shape::Primitive(primitive) => Some(Leaf::Scalar(primitive)),
        Shape::Flags(labels) => Some(Leaf::Flags(labels)),
        Shape::String => Some(Leaf::Text),
        Shape::List(_) => Some(Leaf::Numbers(listed_number(table, ty)?)),
        Shape::Record(_) | Shape::Variant(_) => None,
    }
}

/// Whether one of these members is a text or a list.
fn has_parts(steps: &[Step]) -> bool {
    for step in steps {
        if let Leaf::Text | Leaf::Numbers(_) = step.leaf {
            return true;
        }
    }
    false
}

/// A pair with these members in the places of its own.
#[inline(always)]
fn pair_of(pair: Pair, first: Leaf, second: Leaf) -> Pair
    ensures { pair.first.leaf ≡ first → pair.second.leaf ≡ second → result ≡ pair }
{
    Pair {
        ty: pair.ty,
        first: Step {
            leaf: first,
            place: pair.first.place,
        },
        second: Step {
            leaf: second,
            place: pair.second.place,
        },
    }
}

/// Crosses a member.
#[inline(always)]
fn cross_leaf<G: Guest>(
    leaf: Leaf,
    source: &[u8],
    at: Addresses,
    guest: &mut G,
    nodes: &mut u64,
) -> Result<(), Stopped>
    requires leaf { IsLeaf leaf }
    requires short { length source.now < 2 ^ 32 }
    requires fits { at.from + size (leaf_type leaf) ≤ length source.now }
    requires room { at.to + size (leaf_type leaf) ≤ length (G.memory guest.old).bytes }
    requires small { at.to + size (leaf_type leaf) < 2 ^ 32 }
    ensures { Ends G.allocates (Walks (leaf_type leaf) source.now at.from at.to)
        (G.memory guest.old) nodes.old result (G.memory guest.new) nodes.new }
{
    *nodes = nodes.saturating_add(1);
    match leaf {
        Leaf::Scalar(primitive) => cross_primitive(primitive, source, at, guest),
        Leaf::Flags(labels) => cross_flags(labels, source, at, guest),
        Leaf::Text => cross_text(source, at, guest),
        Leaf::Numbers(primitive) => cross_list(primitive, source, at, guest, nodes),
    }
}

/// Crosses a member behind what comes before it in its record.
#[inline(always)]
fn cross_step<G: Guest>(
    step: Step,
    source: &[u8],
    at: Addresses,
    guest: &mut G,
    nodes: &mut u64,
) -> Result<(), Stopped>
    requires leaf { IsLeaf step.leaf }
    requires short { length source.now < 2 ^ 32 }
    requires fits { at.from + (step.place + size (leaf_type step.leaf)) ≤ length source.now }
    requires room { at.to + (step.place + size (leaf_type step.leaf)) ≤ length (G.memory guest.old).bytes }
    requires small { at.to + (step.place + size (leaf_type step.leaf)) < 2 ^ 32 }
    ensures { Ends G.allocates (Walks (leaf_type step.leaf) source.now (at.from + step.place) (at.to + step.place))
        (G.memory guest.old) nodes.old result (G.memory guest.new) nodes.new }
{
    let behind = Addresses {
        from: at.from + step.place,
        to: at.to + step.place,
    };
    cross_leaf(step.leaf, source, behind, guest, nodes)
}

impl Walk<'_> {
    /// The steps of a type, if it is a record of at most sixteen members, each of which can be a step, and one is a
    /// text or a list.
    pub(crate) fn steps_of(&self, ty: ValType) -> Option<Steps>
        requires { IsInside self.now.types.now ty }
        ensures { IfSome result (λ steps. (steps.ty ≡ ty)
            × AreStepsOf (closed_type self.now.types.now ty) steps.list.items) }
    {
        let Shape::Record(count) = self.types.shape_of(ty) else {
            return None;
        };
        if count > MOST {
            return None;
        }
        let list = self.list_of(ty, count)?;
        if has_parts(list.as_slice()) {
            Some(Steps { ty, list })
        } else {
            None
        }
    }

    /// The members of a record in turn, if each can be a step.
    fn list_of(&self, ty: ValType, count: usize) -> Option<ArrayVec<Step, 16>>
        requires inside { IsInside self.now.types.now ty }
        requires record { record_type (record_fields (closed_type self.now.types.now ty))
            ≡ closed_type self.now.types.now ty }
        requires counted { field_count (record_fields (closed_type self.now.types.now ty)) ≡ count }
        requires few { count ≤ 16 }
        ensures { IfSome result (λ steps. AreSteps (record_fields (closed_type self.now.types.now ty)) 0 steps.items) }
    {
        // A size is a number of 32 bits.
        let _size = self.types.size_of(ty);
        let members = Members::Of(ty);
        let mut steps = ArrayVec::new();
        let mut end: usize = 0;
        for index in 0..count {
            let Some(member) = self.types.member_type(&members, index) else {
                unreachable!()
            };
            let leaf = leaf_of(self.types, member)?;
            let place = aligned(end, self.types.align_of(member));
            steps.push(Step { leaf, place });
            end = place + self.types.size_of(member);
        }
        Some(steps)
    }

    /// Crosses the members of a record in turn.
    #[inline(always)]
    fn cross_steps<G: Guest>(
        &self,
        steps: &Steps,
        at: Addresses,
        guest: &mut G,
        nodes: &mut u64,
    ) -> Result<(), Stopped>
        requires stepped { AreStepsOf (closed_type self.now.types.now steps.now.ty) steps.now.list.items }
        requires short { length self.now.source.now < 2 ^ 32 }
        requires fits { at.from + end_from 0
            (field_extents (record_fields (closed_type self.now.types.now steps.now.ty))) ≤ length self.now.source.now }
        requires room { at.to + end_from 0 (field_extents (record_fields (closed_type self.now.types.now steps.now.ty)))
            ≤ length (G.memory guest.old).bytes }
        requires small { at.to + end_from 0
            (field_extents (record_fields (closed_type self.now.types.now steps.now.ty))) < 2 ^ 32 }
        ensures { Ends G.allocates (FieldsWalk (record_fields (closed_type self.now.types.now steps.now.ty))
            self.now.source.now at.from at.to 0)
            (G.memory guest.old) nodes.old result (G.memory guest.new) nodes.new }
    {
        canonical_abi::laws::reads_exactly();
        are_bytes(self.source);
        let list = steps.list.as_slice();
        for step in list {
            let behind = Addresses {
                from: at.from + step.place,
                to: at.to + step.place,
            };
            cross_leaf(step.leaf, self.source, behind, guest, nodes)?;
        }
        Ok(())
    }

    /// Crosses the members of a record of two: with no loop over them, so that what each is can be a constant.
    #[inline(always)]
    fn cross_two<G: Guest>(
        &self,
        pair: Pair,
        at: Addresses,
        guest: &mut G,
        nodes: &mut u64,
    ) -> Result<(), Stopped>
        requires stepped { AreStepsOf (closed_type self.now.types.now pair.ty) (pair.first ∷ pair.second ∷ []) }
        requires short { length self.now.source.now < 2 ^ 32 }
        requires fits { at.from + end_from 0
            (field_extents (record_fields (closed_type self.now.types.now pair.ty))) ≤ length self.now.source.now }
        requires room { at.to + end_from 0 (field_extents (record_fields (closed_type self.now.types.now pair.ty)))
            ≤ length (G.memory guest.old).bytes }
        requires small { at.to + end_from 0
            (field_extents (record_fields (closed_type self.now.types.now pair.ty))) < 2 ^ 32 }
        ensures { Ends G.allocates (FieldsWalk (record_fields (closed_type self.now.types.now pair.ty))
            self.now.source.now at.from at.to 0)
            (G.memory guest.old) nodes.old result (G.memory guest.new) nodes.new }
    {
        canonical_abi::laws::reads_exactly();
        are_bytes(self.source);
        cross_step(pair.first, self.source, at, guest, nodes)?;
        cross_step(pair.second, self.source, at, guest, nodes)?;
        Ok(())
    }

    /// Crosses so many records of two members one after another: a loop by itself.
    #[inline(always)]
    fn cross_each_pair<G: Guest>(
        &self,
        pair: Pair,
        elements: Elements,
        guest: &mut G,
        nodes: &mut u64,
    ) -> Result<(), Stopped>
        requires inside { IsInside self.now.types.now pair.ty }
        requires stepped { AreStepsOf (closed_type self.now.types.now pair.ty) (pair.first ∷ pair.second ∷ []) }
        requires short { length self.now.source.now < 2 ^ 32 }
        requires fits { elements.from + elements.count * size (closed_type self.now.types.now pair.ty)
            ≤ length self.now.source.now }
        requires room { elements.to + elements.count * size (closed_type self.now.types.now pair.ty)
            ≤ length (G.memory guest.old).bytes }
        requires small { elements.to + elements.count * size (closed_type self.now.types.now pair.ty) < 2 ^ 32 }
        ensures { Ends G.allocates (EachWalks (closed_type self.now.types.now pair.ty) self.now.source.now
            elements.from elements.to elements.count)
            (G.memory guest.old) nodes.old result (G.memory guest.new) nodes.new }
    {
        canonical_abi::laws::reads_exactly();
        are_bytes(self.source);
        let step = self.types.size_of(pair.ty);
        for index in 0..elements.count {
            let ahead = index * step;
            let at = Addresses {
                from: elements.from + ahead,
                to: elements.to + ahead,
            };
            *nodes = nodes.saturating_add(1);
            self.cross_two(pair, at, guest, nodes)?;
        }
        Ok(())
    }

    /// Crosses so many records of two members: what these are is a constant of its own loop for usual pairs.
    #[inline(always)]
    fn cross_pairs<G: Guest>(
        &self,
        pair: Pair,
        elements: Elements,
        guest: &mut G,
        nodes: &mut u64,
    ) -> Result<(), Stopped>
        requires inside { IsInside self.now.types.now pair.ty }
        requires stepped { AreStepsOf (closed_type self.now.types.now pair.ty) (pair.first ∷ pair.second ∷ []) }
        requires short { length self.now.source.now < 2 ^ 32 }
        requires fits { elements.from + elements.count * size (closed_type self.now.types.now pair.ty)
            ≤ length self.now.source.now }
        requires room { elements.to + elements.count * size (closed_type self.now.types.now pair.ty)
            ≤ length (G.memory guest.old).bytes }
        requires small { elements.to + elements.count * size (closed_type self.now.types.now pair.ty) < 2 ^ 32 }
        ensures { Ends G.allocates (EachWalks (closed_type self.now.types.now pair.ty) self.now.source.now
            elements.from elements.to elements.count)
            (G.memory guest.old) nodes.old result (G.memory guest.new) nodes.new }
    {
        match (pair.first.leaf, pair.second.leaf) {
            (Leaf::Scalar(Primitive::U32), Leaf::Text) => {
                let usual = pair_of(pair, Leaf::Scalar(Primitive::U32), Leaf::Text);
                self.cross_each_pair(usual, elements, guest, nodes)
            }
            (Leaf::Scalar(primitive), Leaf::Text) => {
                let usual = pair_of(pair, Leaf::Scalar(primitive), Leaf::Text);
                self.cross_each_pair(usual, elements, guest, nodes)
            }
            (Leaf::Text, Leaf::Text) => {
                let usual = pair_of(pair, Leaf::Text, Leaf::Text);
                self.cross_each_pair(usual, elements, guest, nodes)
            }
            (Leaf::Numbers(first), Leaf::Numbers(second)) => {
                let usual = pair_of(pair, Leaf::Numbers(first), Leaf::Numbers(second));
                self.cross_each_pair(usual, elements, guest, nodes)
            }
            _ => self.cross_each_pair(pair, elements, guest, nodes),
        }
    }

    /// Crosses so many records one after another: a loop by itself.
    #[inline(always)]
    fn cross_each_by_steps<G: Guest>(
        &self,
        steps: &Steps,
        elements: Elements,
        guest: &mut G,
        nodes: &mut u64,
    ) -> Result<(), Stopped>
        requires inside { IsInside self.now.types.now steps.now.ty }
        requires stepped { AreStepsOf (closed_type self.now.types.now steps.now.ty) steps.now.list.items }
        requires short { length self.now.source.now < 2 ^ 32 }
        requires fits { elements.from + elements.count * size (closed_type self.now.types.now steps.now.ty)
            ≤ length self.now.source.now }
        requires room { elements.to + elements.count * size (closed_type self.now.types.now steps.now.ty)
            ≤ length (G.memory guest.old).bytes }
        requires small { elements.to + elements.count * size (closed_type self.now.types.now steps.now.ty) < 2 ^ 32 }
        ensures { Ends G.allocates (EachWalks (closed_type self.now.types.now steps.now.ty) self.now.source.now
            elements.from elements.to elements.count)
            (G.memory guest.old) nodes.old result (G.memory guest.new) nodes.new }
    {
        canonical_abi::laws::reads_exactly();
        are_bytes(self.source);
        let step = self.types.size_of(steps.ty);
        for index in 0..elements.count {
            let ahead = index * step;
            let at = Addresses {
                from: elements.from + ahead,
                to: elements.to + ahead,
            };
            *nodes = nodes.saturating_add(1);
            self.cross_steps(steps, at, guest, nodes)?;
        }
        Ok(())
    }

    /// Crosses so many records by their steps. The nodes are counted in a variable, which can be a register.
    pub(crate) fn cross_by_steps<G: Guest>(
        &self,
        steps: &Steps,
        elements: Elements,
        guest: &mut G,
        nodes: &mut u64,
    ) -> Result<(), Stopped>
        requires inside { IsInside self.now.types.now steps.now.ty }
        requires stepped { AreStepsOf (closed_type self.now.types.now steps.now.ty) steps.now.list.items }
        requires short { length self.now.source.now < 2 ^ 32 }
        requires fits { elements.from + elements.count * size (closed_type self.now.types.now steps.now.ty)
            ≤ length self.now.source.now }
        requires room { elements.to + elements.count * size (closed_type self.now.types.now steps.now.ty)
            ≤ length (G.memory guest.old).bytes }
        requires small { elements.to + elements.count * size (closed_type self.now.types.now steps.now.ty) < 2 ^ 32 }
        ensures { Ends G.allocates (EachWalks (closed_type self.now.types.now steps.now.ty) self.now.source.now
            elements.from elements.to elements.count)
            (G.memory guest.old) nodes.old result (G.memory guest.new) nodes.new }
    {
        let mut seen = *nodes;
        let done = match steps.list.as_slice() {
            [first, second] => {
                let pair = Pair {
                    ty: steps.ty,
                    first: *first,
                    second: *second,
                };
                self.cross_pairs(pair, elements, guest, &mut seen)
            }
            _ => self.cross_each_by_steps(steps, elements, guest, &mut seen),
        };
        *nodes = seen;
        done
    }
}
