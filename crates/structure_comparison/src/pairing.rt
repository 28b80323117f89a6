//! Rows without a name, each met with the definition that it is written as.

use component_structure::{
    Case as ReadCase, Extern, Field as ReadField, Kind, Structure, ValType as ReadType, What,
};
use std::alloc::{AllocError, Global};
use std::collections::BTreeMap;
use tables::{Case, Definition, Member, Resolve, TypeDef, TypeDefKind, ValType};

/// Rows and definitions that were met, where one was read in the place of the other. It claims nothing.
#[derive(Drop)]
pub struct Pairing<'a> {
    resolve: &'a Resolve,
    structure: &'a Structure,
    written: BTreeMap<u32, usize>,
    /// Those whose parts were not met yet.
    open: Vec<(u32, usize)>,
}

impl<'a> Pairing<'a> {
    pub fn new(alloc: Global, resolve: &'a Resolve, structure: &'a Structure) -> Pairing<'a> {
        Pairing {
            resolve,
            structure,
            written: BTreeMap::new(alloc),
            open: Vec::new(alloc),
        }
    }

    /// Notes a row that is read as a definition, unless it was met before.
    fn meet(&mut self, ty: ValType, read: ReadType) -> Result<(), AllocError> {
        if let (ValType::Id(row), ReadType::Defined(id)) = (ty, read)
            && !self.written.contains_key(&row.0)
        {
            self.written.insert(row.0, id.0)?;
            self.open.push((row.0, id.0))?;
        }
        Ok(())
    }

    fn meet_optional(
        &mut self,
        ty: Option<ValType>,
        read: Option<ReadType>,
    ) -> Result<(), AllocError> {
        if let (Some(ty), Some(read)) = (ty, read) {
            self.meet(ty, read)?;
        }
        Ok(())
    }

    fn meet_types(&mut self, types: &[ValType], read: &[ReadType]) -> Result<(), AllocError> {
        for (ty, read) in types.iter().zip(read) {
            self.meet(*ty, *read)?;
        }
        Ok(())
    }

    fn meet_members<T: Member>(
        &mut self,
        members: &[T],
        read: &[ReadField],
    ) -> Result<(), AllocError> {
        for (member, read) in members.iter().zip(read) {
            self.meet(member.ty(), read.ty)?;
        }
        Ok(())
    }

    fn meet_cases(&mut self, cases: &[Case], read: &[ReadCase]) -> Result<(), AllocError> {
        for (case, read) in cases.iter().zip(read) {
            self.meet_optional(case.ty, read.payload)?;
        }
        Ok(())
    }

    /// Meets the parts of a type.
    fn meet_parts(&mut self, kind: &TypeDefKind, read: &Kind) -> Result<(), AllocError> {
        match (kind, read) {
            (TypeDefKind::List(ty), Kind::List(read)) => self.meet(*ty, *read),
            (TypeDefKind::Option(ty), Kind::Option(read)) => self.meet(*ty, *read),
            (
                TypeDefKind::Result(ok, error),
                Kind::Result {
                    ok: read_ok,
                    error: read_error,
                },
            ) => {
                self.meet_optional(*ok, *read_ok)?;
                self.meet_optional(*error, *read_error)
            }
            (TypeDefKind::Tuple(types), Kind::Tuple(read)) => {
                self.meet_types(types.as_slice(), read.as_slice())
            }
            (TypeDefKind::Record(fields), Kind::Record(read)) => {
                self.meet_members(fields.as_slice(), read.as_slice())
            }
            (TypeDefKind::Variant(cases), Kind::Variant(read)) => {
                self.meet_cases(cases.as_slice(), read.as_slice())
            }
            _ => Ok(()),
        }
    }

    /// Meets the parts of a row and of a definition.
    fn meet_row(&mut self, row: u32, id: usize) -> Result<(), AllocError> {
        let resolve = self.resolve;
        let structure = self.structure;
        let own = resolve.definitions.as_slice().get(row as usize);
        let read = structure.definitions.as_slice().get(id);
        if let (Some(Definition::Type(own)), Some(read)) = (own, read) {
            self.meet_parts(&own.kind, &read.kind)?;
        }
        Ok(())
    }

    /// Meets the parts of a type with a name.
    fn meet_named(&mut self, row: u32, own: &TypeDef, read: ReadType) -> Result<(), AllocError> {
        match (&own.kind, read) {
            (TypeDefKind::Alias(ty), _) => self.meet(*ty, read),
            (_, ReadType::Defined(id)) => self.meet_row(row, id.0),
            _ => Ok(()),
        }
    }

    /// Meets the parts of what is imported or exported.
    fn meet_item(&mut self, row: u32, read: &What) -> Result<(), AllocError> {
        let structure = self.structure;
        match (self.resolve.definitions.as_slice().get(row as usize), read) {
            (Some(Definition::Type(own)), What::Type(id)) => {
                match structure.named.as_slice().get(id.0) {
                    Some(named) => self.meet_named(row, own, named.target),
                    None => Ok(()),
                }
            }
            (Some(Definition::Function(own)), What::Function { ty, .. }) => {
                let Some(read) = structure.functions.as_slice().get(ty.0) else {
                    return Ok(());
                };
                self.meet_members(own.params.as_slice(), read.params.as_slice())?;
                self.meet_optional(own.result, read.result)
            }
            _ => Ok(()),
        }
    }

    /// Meets what these rows have with what is imported or exported of them, in step.
    pub fn meet_items(&mut self, rows: &[u32], read: &[Extern]) -> Result<(), AllocError> {
        for (row, read) in rows.iter().zip(read) {
            self.meet_item(*row, &read.what)?;
        }
        Ok(())
    }

    /// The rows without a name, with those that they are made of. Each row is met once at most.
    pub fn written(mut self) -> Result<BTreeMap<u32, usize>, AllocError> {
        for _ in 0..self.resolve.definitions.len() {
            let Some((row, id)) = self.open.pop() else {
                break;
            };
            self.meet_row(row, id)?;
        }
        Ok(self.written)
    }
}
