//! The walk over values, which goes down each as its type does.
ghost use Rattle.std.specs.Prelude.{◌≡◌, ◌<◌, ◌≤◌, ◌^◌, ◌*◌, [], ◌∷◌, ℕ, map, length};
ghost use Rattle.std.specs.List.{AllByRecursion};
ghost use Rattle.canonical_abi.specs.Requests.{request, requests, each_request, fields_requests};
ghost use Rattle.canonical_abi.specs.Types.{list_type};
ghost use Rattle.canonical_abi.specs.Values.{HasType, HaveTypes, list_value, values_of};
ghost use Rattle.tables.specs.Closed.{closed_type};
ghost use Rattle.values.specs.Members.{AreInside, members_fields};
ghost use Rattle.values.specs.Types.{IsInside};
ghost use Rattle.values.specs.Val.{value_of, variant_value};
ghost use Rattle.host_values.specs.Requests.{Tells};

use adapter::Request;
use canonical_abi::{Fault, Step, Trap, TrapKind};
use layout::Shape;
use tables::ValType;
use values::{Members, Scalar, Types, Val};

/// The most bytes that a text or a list of typed values may need.
const MAX_BLOCK: usize = 16_777_216;

/// Tells one more block. K4 in `place` where it has more bytes than a typed value may need.
pub(crate) fn tell(align: usize, size: usize, told: &mut Vec<Request>) -> Result<(), Fault>
    requires align { align < 2 ^ 32 }
    ensures { Tells (request align size ∷ []) told.old.items result told.new.items }
{
    if size > MAX_BLOCK {
        return Err(Fault::Trap(Trap {
            kind: TrapKind::Bounds,
            step: Step::Place,
        }));
    }
    let request = Request {
        align: align as u32,
        size: size as u32,
    };
    match told.push(request) {
        Ok(()) => Ok(()),
        Err(_) => Err(Fault::NoMemory),
    }
}

/// What the blocks of values are told from: the types of a package.
#[derive(Clone, Copy)]
pub(crate) struct Teller<'a> {
    pub types: &'a Types<'a>,
}

impl Teller<'_> {
    /// Tells what a value asks for.
    #[cycle(telling)]
    fn tell_value(&self, ty: ValType, value: &Val, told: &mut Vec<Request>) -> Result<(), Fault>
        requires inside { IsInside self.now.types.now ty }
        requires typed { HasType (value_of value.now) (closed_type self.now.types.now ty) }
        ensures { Tells (requests (closed_type self.now.types.now ty) (value_of value.now)) told.old.items result
            told.new.items }
    {
        match value {
            Val::String(text) => tell(1, text.len(), told),
            Val::List(items) => {
                let Shape::List(element) = self.types.shape_of(ty) else {
                    unreachable!()
                };
                self.tell_list(element, items.as_slice(), told)
            }
            Val::Record(fields) => {
                let members = Members::Of(ty);
                self.tell_fields(&members, fields.as_slice(), told)
            }
            Val::Variant(case, payload) => self.tell_payload(ty, *case, payload, told),
            Val::Flags(_) => Ok(()),
            _ => {
                let Some(_) = Scalar::of(value) else {
                    unreachable!()
                };
                Ok(())
            }
        }
    }

    /// Tells the block of a list's elements, and what these ask for.
    #[cycle(telling)]
    fn tell_list(
        &self,
        element: ValType,
        items: &[Val],
        told: &mut Vec<Request>,
    ) -> Result<(), Fault>
        requires inside { IsInside self.now.types.now element }
        requires typed { AllByRecursion (λ w. HasType w (closed_type self.now.types.now element))
            (map value_of items.now) }
        ensures { Tells (requests (list_type (closed_type self.now.types.now element))
            (list_value (values_of (map value_of items.now))))
            told.old.items result told.new.items }
    {
        let align = self.types.align_of(element);
        let step = self.types.size_of(element);
        tell(align, items.len().saturating_mul(step), told)?;
        for index in 0..items.len() {
            self.tell_value(element, &items[index], told)?;
        }
        Ok(())
    }

    /// Tells what the members of a record ask for.
    #[cycle(telling)]
    pub(crate) fn tell_fields(
        &self,
        members: &Members,
        values: &[Val],
        told: &mut Vec<Request>,
    ) -> Result<(), Fault>
        requires inside { AreInside self.now.types.now members.now }
        requires typed { HaveTypes (map value_of values.now) (members_fields self.now.types.now members.now) }
        ensures { Tells (fields_requests (members_fields self.now.types.now members.now) (map value_of values.now))
            told.old.items result told.new.items }
    {
        for index in 0..values.len() {
            let Some(member) = self.types.member_type(members, index) else {
                unreachable!()
            };
            self.tell_value(member, &values[index], told)?;
        }
        Ok(())
    }

    /// Tells what the payload of a case asks for, if it has one.
    #[cycle(telling)]
    fn tell_payload(
        &self,
        ty: ValType,
        case: u32,
        payload: &Option<Box<Val>>,
        told: &mut Vec<Request>,
    ) -> Result<(), Fault>
        requires inside { IsInside self.now.types.now ty }
        requires typed { HasType (variant_value case payload.now) (closed_type self.now.types.now ty) }
        ensures { Tells (requests (closed_type self.now.types.now ty) (variant_value case payload.now)) told.old.items
            result told.new.items }
    {
        let Shape::Variant(_) = self.types.shape_of(ty) else {
            unreachable!()
        };
        let Some(value) = payload else {
            return Ok(());
        };
        let Some(known) = self.types.case_payload(ty, case as usize) else {
            unreachable!()
        };
        let Some(member) = known else { unreachable!() };
        self.tell_value(member, value, told)
    }
}
