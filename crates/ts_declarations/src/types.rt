//! The types of an interface.

use crate::labels::push_key;
use crate::pages::Page;
use atoms::Label;
use tables::{Case, Definition, Field, TypeDefKind, TypeId, TypeName, ValType};
use wit_comments::Block;

impl<'a> Page<'a> {
    /// Writes the comment of a type, and what comes before its name.
    fn put_heading(&mut self, word: &str, label: &str, keyword: &str) {
        let last = self.text.kept([word, " ", label].concat(self.alloc));
        self.put_comment("  ", label, last.as_str());
        self.text.push_three("\n  export ", keyword, " ");
    }

    /// Writes the name of a type between two texts.
    fn put_name(&mut self, before: &str, id: TypeId, after: &str) {
        self.text.push(before);
        self.text.push(self.spellings.text(ValType::Id(id)));
        self.text.push(after);
    }

    /// The lines of the comment of a member of a type.
    fn comment_of(&mut self, label: &str, member: &str) -> &'a [String] {
        let key = format!(in self.alloc; "{} {label} {member}", self.scope.as_str());
        let key = self.text.kept(key);
        self.comments.of(key.as_str())
    }

    /// Begins the line of a case or a label, below its comment if it has one.
    fn begin_member(&mut self, label: &str, member: &str) {
        if let Some((last, lines)) = self.comment_of(label, member).split_last() {
            let block = Block {
                open: "/**",
                indent: "    ",
                lines,
                last: last.as_str(),
            };
            self.text.push("\n");
            block.push(&mut self.text);
        }
        self.text.push("\n    | ");
    }

    /// Writes the comment of a field of this type, which has these lines.
    fn put_field_comment(&mut self, lines: &[String], ty: ValType) {
        let block = Block {
            open: "/**",
            indent: "    ",
            lines,
            last: self.wit.text(Some(ty)),
        };
        block.push(&mut self.text);
    }

    /// Writes a field: its comment with its type in WIT, its key and its type.
    fn put_field(&mut self, label: &str, field: &Field) {
        let lines = self.comment_of(label, field.name.as_str());
        self.put_field_comment(lines, field.ty);
        self.text
            .push(if lines.is_empty() { " " } else { "\n    " });
        push_key(&mut self.text, field.name.as_str());
        self.text.push(": ");
        self.text.push(self.spellings.text(field.ty));
        self.text.push(";\n");
    }

    /// Writes a member of an object: its type in WIT as a comment, its key and its type.
    fn put_member(&mut self, label: &str, ty: ValType) {
        self.text.push("/** ");
        self.text.push(self.wit.text(Some(ty)));
        self.text.push(" */ ");
        push_key(&mut self.text, label);
        self.text.push(": ");
        self.text.push(self.spellings.text(ty));
    }

    fn put_record(&mut self, label: &str, id: TypeId, fields: &[Field]) {
        self.put_heading("record", label, "interface");
        self.put_name("", id, " {\n");
        for field in fields {
            self.put_field(label, field);
        }
        self.text.push("  }\n");
    }

    fn put_case(&mut self, label: &str, case: &Case) {
        let name = case.name.as_str();
        self.begin_member(label, name);
        match case.ty {
            None => self.text.push_three("\"", name, "\""),
            Some(ty) => {
                self.text.push("{ ");
                self.put_member(name, ty);
                self.text.push(" }");
            }
        }
    }

    fn put_variant(&mut self, label: &str, id: TypeId, cases: &[Case]) {
        self.put_heading("variant", label, "type");
        self.put_name("", id, " =");
        for case in cases {
            self.put_case(label, case);
        }
        self.text.push(";\n");
    }

    /// Writes the labels of a type.
    fn put_labels(&mut self, name: &str, labels: &[Label]) {
        for label in labels {
            self.begin_member(name, label.as_str());
            self.text.push_three("\"", label.as_str(), "\"");
        }
    }

    fn put_enum(&mut self, label: &str, id: TypeId, labels: &[Label]) {
        self.put_heading("enum", label, "type");
        self.put_name("", id, " =");
        self.put_labels(label, labels);
        self.text.push(";\n");
    }

    /// Writes flags, which are the labels that are set.
    fn put_flags(&mut self, label: &str, id: TypeId, labels: &[Label]) {
        let words = ["flags ", label, ": those that are set, in this order"];
        let last = self.text.kept(words.concat(self.alloc));
        self.put_comment("  ", label, last.as_str());
        self.put_name("\n  export type ", id, " = (");
        self.put_labels(label, labels);
        self.text.push("\n  )[];\n");
    }

    /// Writes another name of a type that TypeScript and WIT spell so.
    fn put_alias(&mut self, label: &str, id: TypeId, text: &str, wit: &str) {
        let last = format!(in self.alloc; "type {label} = {wit}");
        let last = self.text.kept(last);
        self.put_comment("  ", label, last.as_str());
        self.put_name("\n  export type ", id, " = ");
        self.text.push(text);
        self.text.push(";\n");
    }

    fn put_type_alias(&mut self, label: &str, id: TypeId, target: ValType) {
        let alloc = self.alloc;
        let text = String::from_str(alloc, self.spellings.text(target));
        let text = self.text.kept(text);
        let wit = String::from_str(alloc, self.wit.text(Some(target)));
        let wit = self.text.kept(wit);
        self.put_alias(label, id, text.as_str(), wit.as_str());
    }

    /// Writes another name of a type without a name.
    fn put_unnamed(&mut self, label: &str, id: TypeId, kind: &TypeDefKind) {
        let wit = self.wit.unnamed(kind);
        let wit = self.text.kept(wit);
        match self.spellings.unnamed(kind) {
            Ok(row) => self.put_alias(label, id, row.text.as_str(), wit.as_str()),
            Err(_) => self.text.refuse(),
        }
    }

    /// Writes a used name.
    fn put_use(&mut self, label: &str, id: TypeId, target: TypeId) {
        let Some((_, used)) = self.named(target) else {
            return;
        };
        let full_name = self.interface_name(used.interface);
        self.text.push_three("  /** type ", label, " = ");
        self.text.push(full_name.as_str());
        self.text.push_three(" ", used.name.as_str(), " */\n");
        self.put_name("  export type ", id, " = ");
        let place = used.interface.0 as usize;
        self.text.push(self.namespaces.interface(place));
        self.put_name(".", target, ";\n");
    }

    /// The type of a row, if it has a name.
    fn named(&self, id: TypeId) -> Option<(&'a TypeDefKind, &'a TypeName)> {
        let found = self.resolve.definitions.as_slice().get(id.0 as usize);
        let Some(Definition::Type(definition)) = found else {
            return None;
        };
        let name = definition.name.as_ref()?;
        Some((&definition.kind, name))
    }

    fn put_type(&mut self, label: &str, id: TypeId, kind: &TypeDefKind) {
        match kind {
            TypeDefKind::Use(target) => self.put_use(label, id, *target),
            TypeDefKind::Alias(target) => self.put_type_alias(label, id, *target),
            TypeDefKind::Record(fields) => self.put_record(label, id, fields.as_slice()),
            TypeDefKind::Variant(cases) => self.put_variant(label, id, cases.as_slice()),
            TypeDefKind::Enum(labels) => self.put_enum(label, id, labels.as_slice()),
            TypeDefKind::Flags(labels) => self.put_flags(label, id, labels.as_slice()),
            _ => self.put_unnamed(label, id, kind),
        }
    }

    /// Writes these types, with an empty line after each.
    pub fn put_types(&mut self, ids: &[TypeId]) {
        for id in ids {
            if let Some((kind, name)) = self.named(*id) {
                self.put_type(name.name.as_str(), *id, kind);
                self.text.push("\n");
            }
        }
    }
}
