//! The classes of a table, one after another, and the names of what they hold.

use crate::docstrings::Docstring;
use crate::spellings::Spellings;
use atoms::Label;
use declared_names::{Namespaces, WitTypes, full_name_of};
use std::alloc::{AllocError, Global};
use tables::{
    Case, Definition, Interface, InterfaceId, PackageId, PackageName, Resolve, TypeDefKind, World,
};
use text_builder::TextBuilder;
use wit_comments::Comments;

/// The declarations so far.
#[derive(Drop)]
pub struct Page<'a> {
    pub alloc: Global,
    pub resolve: &'a Resolve,
    pub text: TextBuilder,
    pub spellings: Spellings,
    pub wit: WitTypes,
    pub namespaces: Namespaces,
    pub comments: &'a Comments,
    /// The full name of the interface or the world that is written.
    pub scope: String,
}

/// Which modules of Python are needed besides `typing`.
#[derive(Clone, Copy)]
struct Needs {
    dataclasses: bool,
    enums: bool,
}

fn has_payload(cases: &[Case]) -> bool {
    for case in cases {
        if case.ty.is_some() {
            return true;
        }
    }
    false
}

impl Needs {
    /// Adds those of a type.
    fn add(&mut self, kind: &TypeDefKind) {
        match kind {
            TypeDefKind::Record(_) => self.dataclasses = true,
            TypeDefKind::Variant(cases) if has_payload(cases.as_slice()) => self.dataclasses = true,
            TypeDefKind::Enum(_) | TypeDefKind::Flags(_) => self.enums = true,
            _ => {}
        }
    }

    fn of(resolve: &Resolve) -> Needs {
        let mut needs = Needs {
            dataclasses: false,
            enums: false,
        };
        for definition in resolve.definitions.as_slice() {
            if let Definition::Type(definition) = definition {
                needs.add(&definition.kind);
            }
        }
        needs
    }
}

impl<'a> Page<'a> {
    fn new(
        alloc: Global,
        resolve: &'a Resolve,
        comments: &'a Comments,
    ) -> Result<Page<'a>, AllocError> {
        let namespaces = Namespaces::of(alloc, resolve)?;
        Ok(Page {
            alloc,
            resolve,
            text: TextBuilder::new(alloc),
            spellings: Spellings::of(alloc, resolve, &namespaces)?,
            wit: WitTypes::of(alloc, resolve)?,
            namespaces,
            comments,
            scope: String::new(alloc),
        })
    }

    /// The full name of an interface or a world of a package.
    pub fn full_name(&mut self, id: PackageId, label: &Label) -> String {
        let name = full_name_of(self.alloc, self.resolve, id, label);
        self.text.kept(name)
    }

    /// The full name of an interface.
    pub fn interface_name(&mut self, id: InterfaceId) -> String {
        let resolve = self.resolve;
        match resolve.interfaces.as_slice().get(id.0 as usize) {
            Some(interface) => self.full_name(interface.package, &interface.name),
            None => String::new(self.alloc),
        }
    }

    /// Writes what a module begins with.
    fn put_head(&mut self, main: &PackageName) {
        self.text.push("\"\"\"");
        self.text.push_made(main.to_string(self.alloc));
        self.text.push(" for hosts in Python, by wit-explain bind python. Do not edit.\"\"\"\n\n");
        self.text.push("from __future__ import annotations\n\n");
        let needs = Needs::of(self.resolve);
        if needs.dataclasses {
            self.text.push("import dataclasses\n");
        }
        if needs.enums {
            self.text.push("import enum\n");
        }
        self.text.push("import typing\n\nimport witcall\n");
    }

    /// Begins the class of the interface or the world of this full name, with its comment.
    fn put_scope(&mut self, word: &str, name: &str, full_name: String) {
        self.text.push_three("\n\nclass ", name, ":\n");
        let words = [word, " ", full_name.as_str()];
        let first = self.text.kept(words.concat(self.alloc));
        let docstring = Docstring {
            indent: "    ",
            first: first.as_str(),
            lines: self.comments.of(full_name.as_str()),
        };
        docstring.push(&mut self.text);
        self.scope = full_name;
    }

    /// Writes the interface of this number.
    fn put_interface(&mut self, place: usize, interface: &Interface) {
        let full_name = self.full_name(interface.package, &interface.name);
        let name = String::from_str(self.alloc, self.namespaces.interface(place));
        let name = self.text.kept(name);
        self.put_scope("interface", name.as_str(), full_name);
        self.put_types(interface.uses.as_slice());
        self.put_types(interface.types.as_slice());
        self.put_functions(interface.functions.as_slice());
    }

    fn put_interfaces(&mut self, interfaces: &[Interface]) {
        for (place, interface) in interfaces.iter().enumerate() {
            self.put_interface(place, interface);
        }
    }

    /// Writes the world of this number.
    fn put_world(&mut self, place: usize, world: &World) {
        let full_name = self.full_name(world.package, &world.name);
        let name = String::from_str(self.alloc, self.namespaces.world(place));
        let name = self.text.kept(name);
        self.put_scope("world", name.as_str(), full_name);
        self.put_sides(world);
    }

    fn put_worlds(&mut self, worlds: &[World]) {
        for (place, world) in worlds.iter().enumerate() {
            self.put_world(place, world);
        }
    }
}

/// A module of Python of a table: of its last package, and of the interfaces of others that it begins with. It has the
/// comments of these.
pub fn declarations_of<'a>(
    alloc: Global,
    resolve: &'a Resolve,
    comments: &'a Comments,
) -> Result<String, AllocError> {
    let mut page = Page::new(alloc, resolve, comments)?;
    if let Some(main) = resolve.packages.as_slice().last() {
        page.put_head(main);
    }
    page.put_interfaces(resolve.interfaces.as_slice());
    page.put_worlds(resolve.worlds.as_slice());
    page.put_declared();
    page.text.finish()
}
