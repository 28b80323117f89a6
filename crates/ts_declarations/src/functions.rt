//! Functions as members of an object, under their labels.

use crate::labels::{parameter_name, push_key};
use crate::pages::Page;
use crate::spellings::Meaning;
use tables::{Definition, Function, FunctionId, Parameter};

impl<'a> Page<'a> {
    /// Writes the comment of a function of an interface, or of one that a world imports or exports.
    fn put_signature(&mut self, function: &Function, side: &str) {
        let signature = self.wit.signature(function);
        let signature = self.text.kept(signature);
        let words = [side, function.name.as_str()];
        let name = self.text.kept(words.concat(self.alloc));
        self.put_comment("    ", name.as_str(), signature.as_str());
        self.text.push("\n");
    }

    /// Writes a parameter. A list of numbers may be a typed array.
    fn put_parameter(&mut self, parameter: &Parameter) {
        let name = parameter_name(self.alloc, parameter.name.as_str());
        self.text.push_made(name);
        self.text.push(": ");
        self.text.push(self.spellings.text(parameter.ty));
        if let Meaning::Numbers(array) = self.spellings.meaning(parameter.ty) {
            self.text.push(" | ");
            self.text.push(array);
        }
    }

    fn put_parameters(&mut self, parameters: &[Parameter]) {
        for (index, parameter) in parameters.iter().enumerate() {
            self.text.push(if index == 0 { "" } else { ", " });
            self.put_parameter(parameter);
        }
    }

    /// Writes a function of an interface, or of one that a world imports or exports: the word for this is before it.
    pub fn put_function(&mut self, id: FunctionId, side: &str) {
        let resolve = self.resolve;
        let found = resolve.definitions.as_slice().get(id.0 as usize);
        let Some(Definition::Function(function)) = found else {
            return;
        };
        self.put_signature(function, side);
        self.text.push("    ");
        push_key(&mut self.text, function.name.as_str());
        self.text.push(": (");
        self.put_parameters(function.params.as_slice());
        self.text.push(") => ");
        match function.result {
            Some(ty) => self.text.push(self.spellings.text(ty)),
            None => self.text.push("void"),
        }
        self.text.push(";\n");
    }

    /// Writes the functions of an interface.
    pub fn put_functions(&mut self, ids: &[FunctionId]) {
        for id in ids {
            self.put_function(*id, "");
        }
    }
}
