//! The types of an interface.

use crate::docstrings::{Docstring, push_attribute_docstring, push_comment_lines};
use crate::names::{member_name, push_constant, type_name};
use crate::pages::Page;
use atoms::Label;
use tables::{Case, Definition, Field, TypeDefKind, TypeId, TypeName, ValType};

/// The line before a class of values that are compared by what they hold, and can't be changed.
static DATA_CLASS: &str = "\n    @dataclasses.dataclass(frozen=True, slots=True)\n";

impl<'a> Page<'a> {
    /// The lines of the comment of a type, or of a member of it.
    pub fn comment_of(&mut self, label: &str, member: &str) -> &'a [String] {
        let blank = if member.is_empty() { "" } else { " " };
        let key = format!(in self.alloc; "{} {label}{blank}{member}", self.scope.as_str());
        let key = self.text.kept(key);
        self.comments.of(key.as_str())
    }

    /// Writes the name of a type in its class.
    fn put_type_name(&mut self, label: &str) {
        let name = type_name(self.alloc, label);
        self.text.push_made(name);
    }

    /// Writes the docstring of a type: the word for what it is, its label, and its comment.
    fn put_type_docstring(&mut self, indent: &str, word: &str, label: &str) {
        let first = self.text.kept([word, " ", label].concat(self.alloc));
        let docstring = Docstring {
            indent,
            first: first.as_str(),
            lines: self.comment_of(label, ""),
        };
        docstring.push(&mut self.text);
    }

    /// Begins the class of a type, whose base is put after its name.
    fn begin_class(&mut self, word: &str, label: &str, base: &str) {
        self.text.push("    class ");
        self.put_type_name(label);
        self.text.push_three(base, ":", "\n");
        self.put_type_docstring("        ", word, label);
        self.text.push("\n");
    }

    /// Writes a field, with its type in WIT as a comment.
    fn put_member(&mut self, name: &str, ty: ValType) {
        self.text.push_three("        ", name, ": ");
        self.text.push(self.spellings.text(ty));
        self.text.push_three("  # ", self.wit.text(Some(ty)), "\n");
    }

    fn put_field(&mut self, label: &str, field: &Field) {
        let name = member_name(self.alloc, field.name.as_str());
        let name = self.text.kept(name);
        self.put_member(name.as_str(), field.ty);
        let lines = self.comment_of(label, field.name.as_str());
        push_attribute_docstring(&mut self.text, "        ", lines);
    }

    fn put_record(&mut self, label: &str, fields: &[Field]) {
        self.text.push(DATA_CLASS);
        self.begin_class("record", label, "");
        for field in fields {
            self.put_field(label, field);
        }
    }

    /// Writes the name of the class of a case. No type has one of its form.
    pub fn put_case_name(&mut self, label: &str, case: &str) {
        let name = type_name(self.alloc, case);
        let name = self.text.kept(name);
        self.put_type_name(label);
        self.text.push_three("_", name.as_str(), "");
    }

    /// Writes the class of a case, if it has a payload.
    fn put_case_class(&mut self, label: &str, case: &Case) {
        let Some(ty) = case.ty else {
            return;
        };
        self.text.push(DATA_CLASS);
        self.text.push("    class ");
        self.put_case_name(label, case.name.as_str());
        self.text.push(":\n");
        let words = [label, " with the case ", case.name.as_str()];
        let first = self.text.kept(words.concat(self.alloc));
        let docstring = Docstring {
            indent: "        ",
            first: first.as_str(),
            lines: self.comment_of(label, case.name.as_str()),
        };
        docstring.push(&mut self.text);
        self.text.push("\n");
        self.put_member("value", ty);
    }

    /// Writes a case as one of the types of its variant. One without a payload is its label.
    fn put_case(&mut self, label: &str, case: &Case) {
        let name = case.name.as_str();
        match case.ty {
            Some(_) => {
                self.text.push("        ");
                self.put_case_name(label, name);
                self.text.push(",\n");
            }
            None => {
                let lines = self.comment_of(label, name);
                push_comment_lines(&mut self.text, "        ", lines);
                self.text
                    .push_three("        typing.Literal[\"", name, "\"],\n");
            }
        }
    }

    fn put_case_classes(&mut self, label: &str, cases: &[Case]) {
        for case in cases {
            self.put_case_class(label, case);
        }
    }

    fn put_variant(&mut self, label: &str, cases: &[Case]) {
        self.put_case_classes(label, cases);
        self.begin_alias(label);
        self.text.push("typing.Union[\n");
        for case in cases {
            self.put_case(label, case);
        }
        self.text.push("    ]\n");
        self.put_type_docstring("    ", "variant", label);
    }

    /// Writes a constant of a type before its value.
    fn begin_constant(&mut self, label: &str) {
        self.text.push("        ");
        push_constant(&mut self.text, label);
        self.text.push(" = ");
    }

    fn put_enum(&mut self, label: &str, labels: &[Label]) {
        self.text.push("\n");
        self.begin_class("enum", label, "(enum.Enum)");
        for case in labels {
            self.begin_constant(case.as_str());
            self.text.push_three("\"", case.as_str(), "\"\n");
            let lines = self.comment_of(label, case.as_str());
            push_attribute_docstring(&mut self.text, "        ", lines);
        }
    }

    fn put_flags(&mut self, label: &str, labels: &[Label]) {
        self.text.push("\n");
        self.begin_class("flags", label, "(enum.Flag)");
        for (bit, flag) in labels.iter().enumerate() {
            self.begin_constant(flag.as_str());
            self.text.push("1 << ");
            self.text.push_number(bit);
            self.text.push("\n");
            let lines = self.comment_of(label, flag.as_str());
            push_attribute_docstring(&mut self.text, "        ", lines);
        }
    }

    /// Begins another name of a type.
    fn begin_alias(&mut self, label: &str) {
        self.text.push("\n    ");
        self.put_type_name(label);
        self.text.push(": typing.TypeAlias = ");
    }

    /// Ends it with what WIT has there.
    fn end_alias(&mut self, label: &str, wit: &str) {
        self.text.push("\n");
        let first = self
            .text
            .kept(["type ", label, " = ", wit].concat(self.alloc));
        let docstring = Docstring {
            indent: "    ",
            first: first.as_str(),
            lines: self.comment_of(label, ""),
        };
        docstring.push(&mut self.text);
    }

    /// Writes the type that another name stands for: a type of this class by its name alone.
    fn put_target(&mut self, target: ValType) {
        match target {
            ValType::Id(id) => match self.named(id) {
                Some((_, name)) => self.put_type_name(name.name.as_str()),
                None => self
                    .text
                    .push_three("\"", self.spellings.text(target), "\""),
            },
            _ => self.text.push(self.spellings.text(target)),
        }
    }

    fn put_type_alias(&mut self, label: &str, target: ValType) {
        self.begin_alias(label);
        self.put_target(target);
        let wit = String::from_str(self.alloc, self.wit.text(Some(target)));
        let wit = self.text.kept(wit);
        self.end_alias(label, wit.as_str());
    }

    /// Writes another name of a type without a name. It is a text, since the class it is in isn't there before its end.
    fn put_unnamed(&mut self, label: &str, kind: &TypeDefKind) {
        self.begin_alias(label);
        let text = self.spellings.unnamed(kind);
        let text = self.text.kept(text);
        self.text.push_three("\"", text.as_str(), "\"");
        let wit = self.wit.unnamed(kind);
        let wit = self.text.kept(wit);
        self.end_alias(label, wit.as_str());
    }

    /// Writes a used name.
    fn put_use(&mut self, label: &str, target: TypeId) {
        let Some((_, used)) = self.named(target) else {
            return;
        };
        self.begin_alias(label);
        self.text.push(self.spellings.text(ValType::Id(target)));
        let full_name = self.interface_name(used.interface);
        let words = [full_name.as_str(), " ", used.name.as_str()];
        let wit = self.text.kept(words.concat(self.alloc));
        self.end_alias(label, wit.as_str());
    }

    /// The type of a row, if it has a name.
    pub fn named(&self, id: TypeId) -> Option<(&'a TypeDefKind, &'a TypeName)> {
        let found = self.resolve.definitions.as_slice().get(id.0 as usize);
        let Some(Definition::Type(definition)) = found else {
            return None;
        };
        let name = definition.name.as_ref()?;
        Some((&definition.kind, name))
    }

    fn put_type(&mut self, label: &str, kind: &TypeDefKind) {
        match kind {
            TypeDefKind::Use(target) => self.put_use(label, *target),
            TypeDefKind::Alias(target) => self.put_type_alias(label, *target),
            TypeDefKind::Record(fields) => self.put_record(label, fields.as_slice()),
            TypeDefKind::Variant(cases) => self.put_variant(label, cases.as_slice()),
            TypeDefKind::Enum(labels) => self.put_enum(label, labels.as_slice()),
            TypeDefKind::Flags(labels) => self.put_flags(label, labels.as_slice()),
            _ => self.put_unnamed(label, kind),
        }
    }

    /// Writes these types, each after an empty line.
    pub fn put_types(&mut self, ids: &[TypeId]) {
        for id in ids {
            if let Some((kind, name)) = self.named(*id) {
                self.put_type(name.name.as_str(), kind);
            }
        }
    }
}
