//! How the result of a function is read.

use crate::laid::tag_bits;
use crate::types::{Form, Types};
use canonical_abi::CoreKind;
use layout::MAX_DEPTH;
use tables::{Primitive, ValType};
use text_builder::TextBuilder;

impl<'a> Types<'a> {
    /// The label and the type of the first field of a record. None if the type is no record.
    fn first_field(&self, ty: ValType) -> Option<(&str, ValType)> {
        let row = self.end_row(ty)?;
        if row.form != Form::Record {
            return None;
        }
        let part = row.parts.first()?;
        Some((part.label.as_str(), part.ty?))
    }

    /// A record of one core value is that of its first field, and so on: appends the fields to the value that has it.
    /// The type of this value.
    fn push_first(&self, path: &mut TextBuilder, ty: ValType) -> ValType {
        let mut end = self.end(ty);
        for _ in 0..MAX_DEPTH {
            let Some((label, field)) = self.first_field(end) else {
                break;
            };
            path.push(".");
            path.push(label);
            end = self.end(field);
        }
        end
    }

    /// Writes how a value of this name in C is read, which has one core value and is no record.
    fn push_last(
        &self,
        text: &mut TextBuilder,
        path: &str,
        end: ValType,
        returned: Option<CoreKind>,
    ) {
        text.push("    ");
        text.push(path);
        if self.form(end) == Form::Variant {
            text.push(".tag = (uint");
            text.push_number(tag_bits(self.parts(end).len()) as usize);
            text.push("_t)wit_i32(back);\n");
            return;
        }
        if end == ValType::Primitive(Primitive::Bool) {
            text.push(" = wit_i32(back) != 0;\n");
            return;
        }
        let reader = match returned {
            Some(CoreKind::I64) => ")wit_i64(back);\n",
            _ => ")wit_i32(back);\n",
        };
        text.push_three(" = (", self.c(end), reader);
    }

    /// Writes how a value of one core value is read.
    pub fn push_one(&self, text: &mut TextBuilder, ty: ValType, returned: Option<CoreKind>) {
        let mut path = TextBuilder::new(self.alloc);
        path.push("value");
        let end = self.push_first(&mut path, ty);
        let path = text.kept(path.finish());
        self.push_last(text, path.as_str(), end, returned);
    }
}
