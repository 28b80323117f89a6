//! Types without a name, which are written where they are met first.

use crate::declarations::Entry;
use crate::header::Header;
use crate::structs::push_extent;
use c_types::c_names::NameKind;
use c_types::{Form, Inner, Part, Row, first_inner, inner_of, made_of};
use tables::{TypeDefKind, TypeId, ValType};
use text_builder::TextBuilder;

/// Writes the type of a list.
fn push_list(text: &mut TextBuilder, c: &str) {
    text.push_three(
        "typedef struct {\n    uint32_t address;\n    uint32_t length;\n} ",
        c,
        ";\n",
    );
}

impl<'a> Header<'a> {
    /// Writes a list.
    fn put_list(&mut self, ty: ValType, c: &str, inner: &Inner) {
        push_list(&mut self.text, c);
        push_extent(&mut self.text, &self.types.laid, c, ty);
        self.put_access(c);
        if let [Some(element)] = inner.parts.as_slice() {
            self.put_elements_of(c, *element);
        }
    }

    /// Writes how the elements of a list are reached that have this type.
    fn put_elements_of(&mut self, c: &str, ty: ValType) {
        let made = String::from_str(self.alloc, self.types.c(ty));
        let element = self.text.kept(made);
        self.put_elements(c, element.as_str());
    }

    /// Writes a type without a name.
    fn put_made(&mut self, ty: ValType, row: &Row, inner: &Inner) {
        if row.form == Form::Pair {
            self.put_list(ty, row.c.as_str(), inner);
        } else {
            self.put_struct(ty, row);
            self.put_access(row.c.as_str());
        }
    }

    /// What a type without a name is in C that is made so, under a name that is taken now.
    fn unnamed_row(&mut self, end: ValType, key: String, made: (Form, Vec<Part>)) -> Row {
        let (form, parts) = made;
        let name = self.text.kept(["wit_", key.as_str()].concat(self.alloc));
        Row {
            end,
            spelling: String::new(self.alloc),
            c: self.take_own(NameKind::Type, name),
            key,
            form,
            parts,
        }
    }

    /// Writes a type without a name, which takes effect once.
    fn put_shared(&mut self, ty: ValType, row: &Row, inner: &Inner) {
        let before = self.begin();
        self.put_made(ty, row, inner);
        let own = self.end(before);
        self.put_defined(row.c.as_str(), own.as_str());
    }

    /// Writes what defines a type of this name, so that it takes effect once.
    fn put_defined(&mut self, c: &str, own: &str) {
        self.text.push("\n");
        let guard = self.text.kept([c, "_defined"].concat(self.alloc));
        self.put_guarded(guard.as_str(), own);
    }

    /// Writes the first type without a name that has this key, and is made so.
    fn put_first(&mut self, id: TypeId, inner: &Inner, key: String, made: (Form, Vec<Part>)) {
        let end = ValType::Id(id);
        self.text.note(self.types.add_unnamed(key.as_str(), end));
        let row = self.unnamed_row(end, key, made);
        self.put_shared(end, &row, inner);
        self.types.set(id, row);
    }

    /// Writes a type without a name if there is none like it yet. What it is in the end.
    fn put_unnamed(&mut self, id: TypeId, inner: &Inner) -> ValType {
        let key = self.text.kept(self.types.key_of(inner));
        if let Some(end) = self.types.unnamed_with(key.as_str()) {
            return end;
        }
        match made_of(self.alloc, inner) {
            Ok(made) => self.put_first(id, inner, key, made),
            Err(_) => self.text.refuse(),
        }
        ValType::Id(id)
    }

    /// Writes a type without a name, which is that of a row.
    fn put_spelled(&mut self, id: TypeId, inner: &Inner) {
        let end = self.put_unnamed(id, inner);
        let spelling = self.text.kept(self.types.spelled(inner));
        self.types.set_end(id, end, spelling);
    }

    /// Writes the type without a name of a row.
    fn put_inner(&mut self, id: TypeId, kind: &TypeDefKind) {
        match inner_of(self.alloc, kind) {
            Ok(Some(inner)) => self.put_spelled(id, &inner),
            Ok(None) => {}
            Err(_) => self.text.refuse(),
        }
    }

    /// Writes the types without a name right before a row, of which its definition is made.
    pub fn put_inners(&mut self, place: u32) {
        for inner in first_inner(self.types.laid.resolve, place)..place {
            if let Some(definition) = self.types.laid.definition(TypeId(inner)) {
                self.put_inner(TypeId(inner), &definition.kind);
            }
        }
    }

    /// Writes another name of a type without a name, which is this one.
    fn put_inner_alias(&mut self, entry: &Entry<'_>, inner: &Inner) {
        let end = self.put_unnamed(entry.id, inner);
        let spelling = self.text.kept(self.types.spelled(inner));
        self.put_type_alias(entry, end, spelling.as_str());
    }

    /// Writes another name of a type without a name.
    pub(crate) fn put_named_inner(&mut self, entry: &Entry<'_>, kind: &TypeDefKind) {
        match inner_of(self.alloc, kind) {
            Ok(Some(inner)) => self.put_inner_alias(entry, &inner),
            Ok(None) => {}
            Err(_) => self.text.refuse(),
        }
    }
}
