//! Functions as methods of a protocol, and as callables.

use crate::docstrings::Docstring;
use crate::names::member_name;
use crate::pages::Page;
use tables::{Definition, Function, FunctionId, Parameter};

impl<'a> Page<'a> {
    /// The function of a row.
    pub fn function(&self, id: FunctionId) -> Option<&'a Function> {
        let found = self.resolve.definitions.as_slice().get(id.0 as usize);
        let Some(Definition::Function(function)) = found else {
            return None;
        };
        Some(function)
    }

    /// Writes parameters, which are given by their places alone.
    fn put_parameters(&mut self, parameters: &[Parameter]) {
        for parameter in parameters {
            let name = member_name(self.alloc, parameter.name.as_str());
            self.text.push(", ");
            self.text.push_made(name);
            self.text.push(": ");
            self.text.push(self.spellings.text(parameter.ty));
        }
        if !parameters.is_empty() {
            self.text.push(", /");
        }
    }

    /// Writes what WIT has of a function, and its comment.
    fn put_signature(&mut self, function: &Function) {
        let signature = self.wit.signature(function);
        let signature = self.text.kept(signature);
        let first = format!(in self.alloc; "{}: {}", function.name.as_str(), signature.as_str());
        let first = self.text.kept(first);
        let docstring = Docstring {
            indent: "            ",
            first: first.as_str(),
            lines: self.comment_of(function.name.as_str(), ""),
        };
        docstring.push(&mut self.text);
    }

    fn put_method(&mut self, function: &Function) {
        let name = member_name(self.alloc, function.name.as_str());
        self.text.push("\n        def ");
        self.text.push_made(name);
        self.text.push("(self");
        self.put_parameters(function.params.as_slice());
        let result = self.spellings.text_or_none(function.result);
        self.text.push_three(") -> ", result, ":\n");
        self.put_signature(function);
    }

    /// Writes the protocol of the functions of an interface.
    pub fn put_functions(&mut self, ids: &[FunctionId]) {
        self.text.push("\n    class Functions(typing.Protocol):\n");
        self.text.push("        \"\"\"The functions of ");
        self.text.push_three(self.scope.as_str(), ".", "\"\"\"\n");
        for id in ids {
            if let Some(function) = self.function(*id) {
                self.put_method(function);
            }
        }
    }

    /// Writes the type of a function.
    pub fn put_callable(&mut self, function: &Function) {
        self.text.push("typing.Callable[[");
        for (index, parameter) in function.params.as_slice().iter().enumerate() {
            self.text.push(if index == 0 { "" } else { ", " });
            self.text.push(self.spellings.text(parameter.ty));
        }
        let result = self.spellings.text_or_none(function.result);
        self.text.push_three("], ", result, "]");
    }
}
