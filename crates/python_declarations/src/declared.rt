//! What `bindings/python` is handed of a module: its classes and its names, by those of WIT.

use crate::names::{member_name, type_name};
use crate::pages::Page;
use tables::{Case, FunctionId, Interface, TypeDefKind, TypeId};

impl<'a> Page<'a> {
    /// Writes a name of the interface that is written, as a key.
    fn put_key(&mut self, label: &str) {
        self.text
            .push_three("        (\"", self.scope.as_str(), "\", \"");
        self.text.push_three(label, "\"): ", "");
    }

    /// Writes the class of a type.
    fn put_class(&mut self, label: &str, namespace: &str) {
        let name = type_name(self.alloc, label);
        let name = self.text.kept(name);
        self.put_key(label);
        self.text.push_three(namespace, ".", name.as_str());
        self.text.push(",\n");
    }

    /// Writes the class of a case, or `None` if it has no payload.
    fn put_case_entry(&mut self, label: &str, namespace: &str, case: &Case) {
        match case.ty {
            Some(_) => {
                self.text.push_three(namespace, ".", "");
                self.put_case_name(label, case.name.as_str());
            }
            None => self.text.push("None"),
        }
        self.text.push(",");
    }

    /// Writes the classes of a variant's cases, in their order.
    fn put_cases(&mut self, label: &str, namespace: &str, cases: &[Case]) {
        self.put_key(label);
        self.text.push("(");
        for (index, case) in cases.iter().enumerate() {
            self.text.push(if index == 0 { "" } else { " " });
            self.put_case_entry(label, namespace, case);
        }
        self.text.push("),\n");
    }

    /// Writes a type. Other names of types stand for these.
    fn put_type_entry(&mut self, label: &str, namespace: &str, kind: &TypeDefKind) {
        match kind {
            TypeDefKind::Variant(cases) => self.put_cases(label, namespace, cases.as_slice()),
            TypeDefKind::Record(_) | TypeDefKind::Enum(_) | TypeDefKind::Flags(_) => {
                self.put_class(label, namespace)
            }
            _ => {}
        }
    }

    fn put_type_entries(&mut self, namespace: &str, ids: &[TypeId]) {
        for id in ids {
            if let Some((kind, name)) = self.named(*id) {
                self.put_type_entry(name.name.as_str(), namespace, kind);
            }
        }
    }

    fn put_function_entries(&mut self, ids: &[FunctionId]) {
        for id in ids {
            if let Some(function) = self.function(*id) {
                let label = function.name.as_str();
                let name = member_name(self.alloc, label);
                let name = self.text.kept(name);
                self.put_key(label);
                self.text.push_three("\"", name.as_str(), "\",\n");
            }
        }
    }

    /// Enters an interface.
    fn enter(&mut self, interface: &Interface) {
        self.scope = self.full_name(interface.package, &interface.name);
    }

    fn put_all_types(&mut self, interfaces: &[Interface]) {
        for (place, interface) in interfaces.iter().enumerate() {
            self.enter(interface);
            let namespace = String::from_str(self.alloc, self.namespaces.interface(place));
            let namespace = self.text.kept(namespace);
            self.put_type_entries(namespace.as_str(), interface.types.as_slice());
        }
    }

    fn put_all_functions(&mut self, interfaces: &[Interface]) {
        for interface in interfaces {
            self.enter(interface);
            self.put_function_entries(interface.functions.as_slice());
        }
    }

    /// Writes the classes of all types, and the names of all functions.
    pub fn put_declared(&mut self) {
        let interfaces = self.resolve.interfaces.as_slice();
        self.text.push("\n\ndeclared: typing.Final = witcall.Declared(\n    types={\n");
        self.put_all_types(interfaces);
        self.text.push("    },\n    functions={\n");
        self.put_all_functions(interfaces);
        self.text.push("    },\n)\n");
    }
}
