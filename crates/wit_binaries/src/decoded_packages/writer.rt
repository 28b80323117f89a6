//! Types and functions as text.

use atoms::{FullName, Label};
use component_decoding::{
    Case, DecodeError, DefinitionId, Fault, Feature, Field, FunctionId, Instance, InstanceId, Kind,
    Named, NamedId, Structure, ValType,
};
use ctype_format::{ExternName, Primitive};
use wit_tokens::keyword_of;

/// How deep types without names may nest.
pub const MAX_NESTING: u32 = 64;

/// A text of what stands in one scope. After a fault nothing more is written.
#[derive(Drop)]
pub struct Writer<'a> {
    pub structure: &'a Structure,
    /// The number of the scope.
    pub scope: usize,
    /// Where the import or the export stands that is written.
    pub place: usize,
    pub text: String,
    /// The most bytes of the text.
    pub room: usize,
    /// The first fault.
    pub fault: Option<DecodeError>,
}

fn word_of(primitive: Primitive) -> &'static str {
    match primitive {
        Primitive::Bool => "bool",
        Primitive::S8 => "s8",
        Primitive::U8 => "u8",
        Primitive::S16 => "s16",
        Primitive::U16 => "u16",
        Primitive::S32 => "s32",
        Primitive::U32 => "u32",
        Primitive::S64 => "s64",
        Primitive::U64 => "u64",
        Primitive::Char => "char",
        Primitive::String => "string",
    }
}

/// Whether a label has `%` before it in a text: one that is spelled as a keyword.
pub fn is_marked(label: &Label) -> bool {
    keyword_of(label.as_bytes()).is_some()
}

fn version_of(name: &FullName) -> Option<&str> {
    match &name.version {
        Some(version) => Some(version.as_str()),
        None => None,
    }
}

/// Whether two names are of one package.
pub fn is_same_package(one: &FullName, other: &FullName) -> bool {
    one.namespace.as_str() == other.namespace.as_str()
        && one.package.as_str() == other.package.as_str()
        && version_of(one) == version_of(other)
}

impl Writer<'_> {
    /// Notes a fault, unless there was one before.
    pub fn fail(&mut self, fault: DecodeError) {
        if self.fault.is_none() {
            self.fault = Some(fault);
        }
    }

    /// Notes a fault at what is written, unless there was one before.
    pub fn refuse(&mut self, fault: Fault) {
        self.fail(DecodeError::At(fault, self.place));
    }

    /// The first fault, if there is one.
    pub fn done(&self) -> Result<(), DecodeError> {
        match self.fault {
            Some(fault) => Err(fault),
            None => Ok(()),
        }
    }

    /// Appends a text, unless there is no room.
    pub fn put(&mut self, text: &str) {
        if self.fault.is_some() {
            return;
        }
        if text.len() > self.room.saturating_sub(self.text.len()) {
            self.refuse(Fault::Limit);
        } else if self.text.push_str(text).is_err() {
            self.fail(DecodeError::NoMemory);
        }
    }

    /// A label, with `%` before one that is spelled as a keyword.
    pub fn put_label(&mut self, label: &Label) {
        self.put(if is_marked(label) { "%" } else { "" });
        self.put(label.as_str());
    }

    /// The path of an interface in the text of a package, of which this is a name.
    pub fn put_path(&mut self, own: &FullName, name: &FullName) {
        if is_same_package(own, name) {
            return self.put_label(&name.name);
        }
        self.put_label(&name.namespace);
        self.put(":");
        self.put_label(&name.package);
        self.put("/");
        self.put_label(&name.name);
        if let Some(version) = &name.version {
            self.put("@");
            self.put(version.as_str());
        }
    }

    /// The name of a type of this scope.
    fn put_name(&mut self, id: NamedId) {
        let structure = self.structure;
        match structure.named.as_slice().get(id.0) {
            Some(named) if named.scope == self.scope => self.put_label(&named.name),
            _ => self.refuse(Fault::NotUsed),
        }
    }

    /// A type where it is used, within so many others at most.
    #[cycle(types)]
    pub fn put_type(&mut self, ty: ValType, room: u32) {
        match ty {
            _ if self.fault.is_some() => {}
            ValType::Primitive(primitive) => self.put(word_of(primitive)),
            ValType::Named(id) => self.put_name(id),
            ValType::Used(_) => self.refuse(Fault::NotUsed),
            ValType::Defined(_) if room == 0 => self.refuse(Fault::Limit),
            ValType::Defined(id) => self.put_defined(id, room - 1),
        }
    }

    /// A type without a name.
    #[cycle(types)]
    fn put_defined(&mut self, id: DefinitionId, room: u32) {
        let structure = self.structure;
        if let Some(definition) = structure.definitions.as_slice().get(id.0) {
            self.put_kind(&definition.kind, room);
        }
    }

    /// What a type without a name is made of.
    #[cycle(types)]
    fn put_kind(&mut self, kind: &Kind, room: u32) {
        match kind {
            Kind::List(element) => {
                self.put("list<");
                self.put_type(*element, room);
            }
            Kind::Option(payload) => {
                self.put("option<");
                self.put_type(*payload, room);
            }
            Kind::Tuple(members) => {
                self.put("tuple<");
                self.put_types(members.as_slice(), room);
            }
            Kind::Result { ok, error } => return self.put_result(*ok, *error, room),
            Kind::Record(_) | Kind::Variant(_) | Kind::Enum(_) | Kind::Flags(_) => {
                return self.refuse(Fault::Unnamed);
            }
        }
        self.put(">");
    }

    #[cycle(types)]
    fn put_types(&mut self, types: &[ValType], room: u32) {
        for (index, ty) in types.iter().enumerate() {
            self.put(if index == 0 { "" } else { ", " });
            self.put_type(*ty, room);
        }
    }

    #[cycle(types)]
    fn put_result(&mut self, ok: Option<ValType>, error: Option<ValType>, room: u32) {
        match (ok, error) {
            (None, None) => return self.put("result"),
            (Some(ok), None) => {
                self.put("result<");
                self.put_type(ok, room);
            }
            (None, Some(error)) => {
                self.put("result<_, ");
                self.put_type(error, room);
            }
            (Some(ok), Some(error)) => {
                self.put("result<");
                self.put_type(ok, room);
                self.put(", ");
                self.put_type(error, room);
            }
        }
        self.put(">");
    }

    /// Fields or parameters.
    fn put_fields(&mut self, fields: &[Field]) {
        for (index, field) in fields.iter().enumerate() {
            self.put(if index == 0 { "" } else { ", " });
            self.put_label(&field.label);
            self.put(": ");
            self.put_type(field.ty, MAX_NESTING);
        }
    }

    fn put_cases(&mut self, cases: &[Case]) {
        for case in cases {
            self.put_label(&case.label);
            if let Some(payload) = case.payload {
                self.put("(");
                self.put_type(payload, MAX_NESTING);
                self.put(")");
            }
            self.put(", ");
        }
    }

    fn put_labels(&mut self, labels: &[Label]) {
        for label in labels {
            self.put_label(label);
            self.put(", ");
        }
    }

    /// A word, and the name that it gives a type.
    fn put_head(&mut self, word: &str, name: &Label) {
        self.put(word);
        self.put_label(name);
    }

    /// A type of members or labels with its name. False if the type is another one: nothing is written then.
    pub fn put_members(&mut self, name: &Label, kind: &Kind) -> bool {
        match kind {
            Kind::Record(fields) => {
                self.put_head("record ", name);
                self.put(" { ");
                self.put_fields(fields.as_slice());
            }
            Kind::Variant(cases) => {
                self.put_head("variant ", name);
                self.put(" { ");
                self.put_cases(cases.as_slice());
            }
            Kind::Enum(labels) => {
                self.put_head("enum ", name);
                self.put(" { ");
                self.put_labels(labels.as_slice());
            }
            Kind::Flags(labels) => {
                self.put_head("flags ", name);
                self.put(" { ");
                self.put_labels(labels.as_slice());
            }
            _ => return false,
        }
        self.put("}\n");
        true
    }

    /// A name for a type that has one or needs none.
    pub fn put_alias(&mut self, name: &Label, ty: ValType) {
        self.put_head("type ", name);
        self.put(" = ");
        self.put_type(ty, MAX_NESTING);
        self.put(";\n");
    }

    /// A function with its name.
    pub fn put_function(&mut self, name: &Label, id: FunctionId) {
        let structure = self.structure;
        let Some(function) = structure.functions.as_slice().get(id.0) else {
            return;
        };
        self.put_label(name);
        self.put(": func(");
        self.put_fields(function.params.as_slice());
        self.put(")");
        if let Some(result) = function.result {
            self.put(" -> ");
            self.put_type(result, MAX_NESTING);
        }
        self.put(";\n");
    }
}

/// The full name of an instance, which has to be an interface's.
pub fn interface_name(instance: &Instance, place: usize) -> Result<&FullName, DecodeError> {
    match &instance.name {
        ExternName::FullName(name) => Ok(name),
        ExternName::Label(_) => Err(DecodeError::At(
            Fault::Outside(Feature::InlineInterface),
            place,
        )),
    }
}

/// An instance of a structure.
pub fn instance_at(structure: &Structure, id: InstanceId) -> Option<&Instance> {
    structure.instances.as_slice().get(id.0)
}

/// A type with a name of a structure.
pub fn named_at(structure: &Structure, id: NamedId) -> Option<&Named> {
    structure.named.as_slice().get(id.0)
}
