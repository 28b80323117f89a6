//! The text of one interface.

use crate::decoded_packages::writer::{Writer, instance_at, interface_name, named_at};
use atoms::{FullName, Label};
use component_decoding::{
    DecodeError, DefinitionId, Extern, Fault, Feature, Named, NamedId, Scope, UsedId, ValType, What,
};
use std::alloc::Global;
use std::collections::BTreeMap;
use tables::Direction;

/// What an interface has, as text.
#[derive(Drop)]
pub struct Form {
    pub types: String,
    pub functions: String,
}

/// An interface that is read.
#[derive(Drop)]
pub struct FormWriter<'a> {
    pub alloc: Global,
    pub writer: Writer<'a>,
    pub direction: Direction,
    /// Its full name.
    pub name: &'a FullName,
    /// The first name of each type that is defined here.
    pub defined: BTreeMap<usize, NamedId>,
}

impl FormWriter<'_> {
    /// A `use` of a type of the interface of this full name, under a name.
    fn put_use(&mut self, local: &Label, name: &FullName, used: &Label) {
        self.writer.put("use ");
        self.writer.put_path(self.name, name);
        self.writer.put(".{");
        self.writer.put_label(used);
        if used.as_str() != local.as_str() {
            self.writer.put(" as ");
            self.writer.put_label(local);
        }
        self.writer.put("};\n");
    }

    /// A type of another interface under a name.
    fn put_used(&mut self, local: &Label, id: UsedId) {
        let structure = self.writer.structure;
        let Some(used) = structure.used.as_slice().get(id.0) else {
            return;
        };
        let Some(instance) = instance_at(structure, used.instance) else {
            return;
        };
        if self.direction == Direction::Import && instance.direction == Direction::Export {
            return self.writer.refuse(Fault::OtherSide);
        }
        match interface_name(instance, self.writer.place) {
            Ok(name) => self.put_use(local, name, &used.name),
            Err(fault) => self.writer.fail(fault),
        }
    }

    /// A type that is defined without a name: one of members or labels here, or an alias.
    fn put_defined(&mut self, named: NamedId, name: &Label, id: DefinitionId) {
        let structure = self.writer.structure;
        let Some(definition) = structure.definitions.as_slice().get(id.0) else {
            return;
        };
        if let Some(first) = self.defined.get(&id.0) {
            self.writer.put_alias(name, ValType::Named(*first));
        } else if !self.writer.put_members(name, &definition.kind) {
            self.writer.put_alias(name, ValType::Defined(id));
        } else if definition.scope != self.writer.scope {
            self.writer.refuse(Fault::Unnamed);
        } else if self.defined.insert(id.0, named).is_err() {
            self.writer.fail(DecodeError::NoMemory);
        }
    }

    fn put_type(&mut self, id: NamedId, named: &Named) {
        match named.target {
            ValType::Used(used) => self.put_used(&named.name, used),
            ValType::Defined(defined) => self.put_defined(id, &named.name, defined),
            ty => self.writer.put_alias(&named.name, ty),
        }
    }

    /// An export of an interface, if it is a type.
    fn put_extern(&mut self, item: &Extern) {
        self.writer.place = item.place;
        match &item.what {
            What::Type(id) => {
                if let Some(named) = named_at(self.writer.structure, *id) {
                    self.put_type(*id, named);
                }
            }
            What::Function { .. } => {}
            What::Component { .. } | What::Instance(_) => {
                self.writer.refuse(Fault::Outside(Feature::NestedInstance));
            }
        }
    }

    /// The types of an interface, up to the first fault.
    fn put_types(&mut self, items: &[Extern]) {
        for item in items {
            if self.writer.fault.is_some() {
                return;
            }
            self.put_extern(item);
        }
    }

    /// The functions of an interface, up to the first fault.
    fn put_functions(&mut self, items: &[Extern]) {
        for item in items {
            if self.writer.fault.is_some() {
                return;
            }
            if let What::Function { name, ty } = &item.what {
                self.writer.place = item.place;
                self.writer.put_function(name, *ty);
            }
        }
    }

    /// The text of what an instance type exports.
    pub fn form(mut self, scope: &Scope) -> Result<Form, DecodeError> {
        let items = scope.externs.as_slice();
        self.put_types(items);
        let empty = String::new(self.alloc);
        let types = std::mem::replace(&mut self.writer.text, empty);
        self.put_functions(items);
        self.writer.done()?;
        Ok(Form {
            types,
            functions: self.writer.text,
        })
    }
}
