//! Types of values and of functions, as they stand in a scope. (Binary.md, "Type Definitions")
ghost use Rattle.std.specs.Prelude.{◌≡◌, [], IfOk, slice_get};
ghost use Rattle.std.specs.Option.{option_map};
ghost use Rattle.ctype_format.specs.Opcodes.{primitive_of};
ghost use Rattle.component_structure.specs.Bytes.{repeat};
ghost use Rattle.component_structure.specs.Bytes.{Answers};
ghost use Rattle.component_structure.specs.Names.{with_name};
ghost use Rattle.component_structure.specs.Parts.{kind_view, function_view};
ghost use Rattle.component_structure.specs.Types.{type_fault, value_from, val_type, optional, new_label, field, fields};
ghost use Rattle.component_structure.specs.Types.{case, cases, member_label, labels, member, some, kind};
ghost use Rattle.component_structure.specs.Types.{flags_kind, record_kind, variant_kind, tuple_kind};
ghost use Rattle.component_structure.specs.Types.{enum_kind, result_kind};
ghost use Rattle.component_structure.specs.Types.{outcome, function};

use crate::error::{DecodeError, Fault, Feature};
use crate::names::Names;
use crate::reader::Reader;
use crate::structure::{Case, Entry, Field, Function, Kind, Scope, ValType};
use atoms::Label;
use ctype_format::{Opcode, Primitive, opcode_of};
use std::alloc::Global;

/// How many labels flags may have.
const MAX_FLAGS: u32 = 32;

/// What is wrong with a byte that begins no type.
#[tactic(auto, unfolding(crate::specs::Types::type_fault))]
pub fn type_fault(byte: u8) -> Fault
    ensures { result ≡ type_fault byte }
{
    let feature = match byte {
        0x76 | 0x75 => Feature::Float,
        0x69 | 0x68 | 0x3f | 0x3e => Feature::Resource,
        0x67 => Feature::FixedLengthList,
        0x66 => Feature::Stream,
        0x65 => Feature::Future,
        0x64 => Feature::ErrorContext,
        0x63 => Feature::Map,
        0x43 => Feature::AsyncFunction,
        _ => return Fault::UnknownByte(byte),
    };
    Fault::Outside(feature)
}

#[tactic(auto, unfolding(ctype_format::specs::Opcodes::opcode_of, ctype_format::specs::Opcodes::primitive_of))]
fn primitive_of(byte: u8) -> Option<Primitive>
    ensures { result ≡ primitive_of byte }
{
    match opcode_of(byte) {
        Some(Opcode::Primitive(primitive)) => Some(primitive),
        _ => None,
    }
}

/// A count that is not 0.
fn some(reader: &mut Reader<'_>) -> Result<u32, DecodeError>
    ensures reads { Answers (λ x. (x, reader.new.rest.now)) result ((some reader.old.end).read reader.old.rest.now) }
    ensures whole { reader.new.end ≡ reader.old.end }
{
    let place = reader.place();
    match reader.number()? {
        0 => Err(DecodeError::At(Fault::EmptyType, place)),
        count => Ok(count),
    }
}

/// A label that differs in more than case from the others.
fn new_label(
    alloc: Global,
    reader: &mut Reader<'_>,
    names: &mut Names,
) -> Result<Label, DecodeError>
    ensures reads { Answers (λ x. (x, reader.new.rest.now)) result
        ((new_label reader.old.end names.old).read reader.old.rest.now) }
    ensures names { IfOk result (λ x. names.new ≡ with_name names.old x) }
    ensures whole { reader.new.end ≡ reader.old.end }
{
    let place = reader.place();
    let label = reader.label(alloc)?;
    if names.add(label.as_str())? {
        return Ok(label);
    }
    Err(DecodeError::At(Fault::NameTwice, place))
}

/// One more label.
#[tactic(auto, unfolding(crate::specs::Types::member_label))]
fn label(
    alloc: Global,
    reader: &mut Reader<'_>,
    names: &mut Names,
    labels: &mut Vec<Label>,
) -> Result<(), DecodeError>
    ensures reads { Answers (λ _. ((names.new, labels.new.items), reader.new.rest.now)) result
        ((member_label reader.old.end (names.old, labels.old.items)).read reader.old.rest.now) }
    ensures whole { reader.new.end ≡ reader.old.end }
{
    labels.push(new_label(alloc, reader, names)?)?;
    Ok(())
}

/// So many labels.
fn labels(alloc: Global, reader: &mut Reader<'_>, count: u32) -> Result<Vec<Label>, DecodeError>
    ensures reads { Answers (λ x. (x.items, reader.new.rest.now)) result
        ((labels reader.old.end count).read reader.old.rest.now) }
    ensures whole { reader.new.end ≡ reader.old.end }
{
    let mut names = Names::new(alloc);
    let mut labels = Vec::new(alloc);
    for _ in 0..count {
        label(alloc, reader, &mut names, &mut labels)?;
    }
    Ok(labels)
}

/// The labels of flags, behind the opcode.
#[tactic(auto, unfolding(crate::specs::Types::flags_kind))]
fn flags(alloc: Global, reader: &mut Reader<'_>) -> Result<Kind, DecodeError>
    ensures reads { Answers (λ x. (Some (kind_view x), reader.new.rest.now)) result
        ((flags_kind reader.old.end).read reader.old.rest.now) }
    ensures whole { reader.new.end ≡ reader.old.end }
{
    let place = reader.place();
    let count = some(reader)?;
    if count > MAX_FLAGS {
        return Err(DecodeError::At(Fault::Limit, place));
    }
    Ok(Kind::Flags(labels(alloc, reader, count)?))
}

/// The types of a scope, by which others are read.
#[derive(Clone, Copy)]
pub struct Types<'a> {
    pub alloc: Global,
    pub scope: &'a Scope,
}

impl Types<'_> {
    /// The type at an index, which has to be one of values.
    fn at(&self, index: u32) -> Result<ValType, Fault>
        ensures { result ≡ value_from (slice_get self.now.scope.now.types.items index) }
    {
        match self.scope.types.as_slice().get(index as usize) {
            Some(Entry::Value(ty)) => Ok(*ty),
            Some(_) => Err(Fault::WrongSort),
            None => Err(Fault::BadIndex),
        }
    }

    /// A primitive type, or the index of a type of values.
    #[tactic(auto, unfolding(crate::specs::Types::val_type))]
    fn val_type(&self, reader: &mut Reader<'_>) -> Result<ValType, DecodeError>
        ensures reads { Answers (λ x. (x, reader.new.rest.now)) result
            ((val_type reader.old.end self.now.scope.now.types.items).read reader.old.rest.now) }
        ensures whole { reader.new.end ≡ reader.old.end }
    {
        let place = reader.place();
        let found = match reader.peek() {
            Some(byte @ 0x40..=0x7f) => {
                reader.byte()?;
                match primitive_of(byte) {
                    Some(primitive) => Ok(ValType::Primitive(primitive)),
                    None => Err(type_fault(byte)),
                }
            }
            _ => self.at(reader.signed_index()?),
        };
        match found {
            Ok(ty) => Ok(ty),
            Err(fault) => Err(DecodeError::At(fault, place)),
        }
    }

    #[tactic(auto, unfolding(crate::specs::Types::optional))]
    fn optional(&self, reader: &mut Reader<'_>) -> Result<Option<ValType>, DecodeError>
        ensures reads { Answers (λ x. (x, reader.new.rest.now)) result
            ((optional reader.old.end self.now.scope.now.types.items).read reader.old.rest.now) }
        ensures whole { reader.new.end ≡ reader.old.end }
    {
        if reader.flag()? {
            return Ok(Some(self.val_type(reader)?));
        }
        Ok(None)
    }

    /// One more label with a type.
    #[tactic(auto, unfolding(crate::specs::Types::field))]
    fn field(
        &self,
        reader: &mut Reader<'_>,
        names: &mut Names,
        fields: &mut Vec<Field>,
    ) -> Result<(), DecodeError>
        ensures reads { Answers (λ _. ((names.new, fields.new.items), reader.new.rest.now)) result
            ((field reader.old.end self.now.scope.now.types.items (names.old, fields.old.items)).read
            reader.old.rest.now) }
        ensures whole { reader.new.end ≡ reader.old.end }
    {
        let label = new_label(self.alloc, reader, names)?;
        let ty = self.val_type(reader)?;
        fields.push(Field { label, ty })?;
        Ok(())
    }

    /// So many labels with types.
    fn fields(&self, reader: &mut Reader<'_>, count: u32) -> Result<Vec<Field>, DecodeError>
        ensures reads { Answers (λ x. (x.items, reader.new.rest.now)) result
            ((fields reader.old.end self.now.scope.now.types.items count).read reader.old.rest.now) }
        ensures whole { reader.new.end ≡ reader.old.end }
    {
        let mut names = Names::new(self.alloc);
        let mut fields = Vec::new(self.alloc);
        for _ in 0..count {
            self.field(reader, &mut names, &mut fields)?;
        }
        Ok(fields)
    }

    /// One more case, with a byte behind it that is 0.
    #[tactic(auto, unfolding(crate::specs::Types::case))]
    fn case(
        &self,
        reader: &mut Reader<'_>,
        names: &mut Names,
        cases: &mut Vec<Case>,
    ) -> Result<(), DecodeError>
        ensures reads { Answers (λ _. ((names.new, cases.new.items), reader.new.rest.now)) result
            ((case reader.old.end self.now.scope.now.types.items (names.old, cases.old.items)).read
            reader.old.rest.now) }
        ensures whole { reader.new.end ≡ reader.old.end }
    {
        let label = new_label(self.alloc, reader, names)?;
        let payload = self.optional(reader)?;
        reader.zero()?;
        cases.push(Case { label, payload })?;
        Ok(())
    }

    /// So many cases.
    fn cases(&self, reader: &mut Reader<'_>, count: u32) -> Result<Vec<Case>, DecodeError>
        ensures reads { Answers (λ x. (x.items, reader.new.rest.now)) result
            ((cases reader.old.end self.now.scope.now.types.items count).read reader.old.rest.now) }
        ensures whole { reader.new.end ≡ reader.old.end }
    {
        let mut names = Names::new(self.alloc);
        let mut cases = Vec::new(self.alloc);
        for _ in 0..count {
            self.case(reader, &mut names, &mut cases)?;
        }
        Ok(cases)
    }

    /// One more member of a tuple.
    #[tactic(auto, unfolding(crate::specs::Types::member))]
    fn member(&self, reader: &mut Reader<'_>, members: &mut Vec<ValType>) -> Result<(), DecodeError>
        ensures reads { Answers (λ _. (members.new.items, reader.new.rest.now)) result
            ((member reader.old.end self.now.scope.now.types.items members.old.items).read reader.old.rest.now) }
        ensures whole { reader.new.end ≡ reader.old.end }
    {
        members.push(self.val_type(reader)?)?;
        Ok(())
    }

    /// So many types.
    fn members(&self, reader: &mut Reader<'_>, count: u32) -> Result<Vec<ValType>, DecodeError>
        ensures reads { Answers (λ x. (x.items, reader.new.rest.now)) result
            ((repeat count (member reader.old.end self.now.scope.now.types.items) []).read reader.old.rest.now) }
        ensures whole { reader.new.end ≡ reader.old.end }
    {
        let mut members = Vec::new(self.alloc);
        for _ in 0..count {
            self.member(reader, &mut members)?;
        }
        Ok(members)
    }

    #[tactic(auto, unfolding(crate::specs::Types::record_kind))]
    fn record(&self, reader: &mut Reader<'_>) -> Result<Kind, DecodeError>
        ensures reads { Answers (λ x. (Some (kind_view x), reader.new.rest.now)) result
            ((record_kind reader.old.end self.now.scope.now.types.items).read reader.old.rest.now) }
        ensures whole { reader.new.end ≡ reader.old.end }
    {
        let count = some(reader)?;
        Ok(Kind::Record(self.fields(reader, count)?))
    }

    #[tactic(auto, unfolding(crate::specs::Types::variant_kind))]
    fn variant(&self, reader: &mut Reader<'_>) -> Result<Kind, DecodeError>
        ensures reads { Answers (λ x. (Some (kind_view x), reader.new.rest.now)) result
            ((variant_kind reader.old.end self.now.scope.now.types.items).read reader.old.rest.now) }
        ensures whole { reader.new.end ≡ reader.old.end }
    {
        let count = some(reader)?;
        Ok(Kind::Variant(self.cases(reader, count)?))
    }

    #[tactic(auto, unfolding(crate::specs::Types::tuple_kind))]
    fn tuple(&self, reader: &mut Reader<'_>) -> Result<Kind, DecodeError>
        ensures reads { Answers (λ x. (Some (kind_view x), reader.new.rest.now)) result
            ((tuple_kind reader.old.end self.now.scope.now.types.items).read reader.old.rest.now) }
        ensures whole { reader.new.end ≡ reader.old.end }
    {
        let count = some(reader)?;
        Ok(Kind::Tuple(self.members(reader, count)?))
    }

    #[tactic(auto, unfolding(crate::specs::Types::enum_kind))]
    fn enumeration(&self, reader: &mut Reader<'_>) -> Result<Kind, DecodeError>
        ensures reads { Answers (λ x. (Some (kind_view x), reader.new.rest.now)) result
            ((enum_kind reader.old.end).read reader.old.rest.now) }
        ensures whole { reader.new.end ≡ reader.old.end }
    {
        let count = some(reader)?;
        Ok(Kind::Enum(labels(self.alloc, reader, count)?))
    }

    #[tactic(auto, unfolding(crate::specs::Types::result_kind))]
    fn result(&self, reader: &mut Reader<'_>) -> Result<Kind, DecodeError>
        ensures reads { Answers (λ x. (Some (kind_view x), reader.new.rest.now)) result
            ((result_kind reader.old.end self.now.scope.now.types.items).read reader.old.rest.now) }
        ensures whole { reader.new.end ≡ reader.old.end }
    {
        let ok = self.optional(reader)?;
        let error = self.optional(reader)?;
        Ok(Kind::Result { ok, error })
    }

    /// What a type with this opcode is made of. None if the opcode is of no such type.
    #[tactic(auto, unfolding(crate::specs::Types::kind, crate::specs::Types::list_kind, crate::specs::Types::option_kind),)]
    pub fn kind(&self, reader: &mut Reader<'_>, opcode: Opcode) -> Result<Option<Kind>, DecodeError>
        ensures reads { Answers (λ x. (option_map kind_view x, reader.new.rest.now)) result
            ((kind reader.old.end self.now.scope.now.types.items opcode).read reader.old.rest.now) }
        ensures whole { reader.new.end ≡ reader.old.end }
    {
        let kind = match opcode {
            Opcode::Record => self.record(reader)?,
            Opcode::Variant => self.variant(reader)?,
            Opcode::List => Kind::List(self.val_type(reader)?),
            Opcode::Tuple => self.tuple(reader)?,
            Opcode::Flags => flags(self.alloc, reader)?,
            Opcode::Enum => self.enumeration(reader)?,
            Opcode::Option => Kind::Option(self.val_type(reader)?),
            Opcode::Result => self.result(reader)?,
            Opcode::Primitive(_) | Opcode::Function | Opcode::Component | Opcode::Instance => {
                return Ok(None);
            }
        };
        Ok(Some(kind))
    }

    /// The type of a function's result: 0 and the type, or 1 and 0 for none.
    #[tactic(auto, unfolding(crate::specs::Types::outcome))]
    fn outcome(&self, reader: &mut Reader<'_>) -> Result<Option<ValType>, DecodeError>
        ensures reads { Answers (λ x. (x, reader.new.rest.now)) result
            ((outcome reader.old.end self.now.scope.now.types.items).read reader.old.rest.now) }
        ensures whole { reader.new.end ≡ reader.old.end }
    {
        if !reader.flag()? {
            return Ok(Some(self.val_type(reader)?));
        }
        let place = reader.place();
        match reader.number()? {
            0 => Ok(None),
            _ => Err(DecodeError::At(Fault::Outside(Feature::NamedResults), place)),
        }
    }

    /// A function's type, behind the opcode.
    #[tactic(auto, unfolding(crate::specs::Types::function))]
    pub fn function(&self, reader: &mut Reader<'_>) -> Result<Function, DecodeError>
        ensures reads { Answers (λ x. (function_view x, reader.new.rest.now)) result
            ((function reader.old.end self.now.scope.now.types.items).read reader.old.rest.now) }
        ensures whole { reader.new.end ≡ reader.old.end }
    {
        let count = reader.number()?;
        let params = self.fields(reader, count)?;
        let result = self.outcome(reader)?;
        Ok(Function { params, result })
    }
}
