//! Equal tables.
ghost use Rattle.std.specs.Prelude.{◌≡◌, IfOk};
ghost use Rattle.tables.specs.Same.{IsSamePackage};

use atoms::Label;
use std::alloc::{AllocError, Global};
use tables::{
    Case, Definition, Field, Function, FunctionId, Interface, PackageName, Parameter, Resolve,
    Sequence, TypeDef, TypeDefKind, TypeId, TypeName, ValType, World, WorldItem, copy_version,
};

/// What can be made anew.
trait Copied: Sized {
    ghost use Rattle.std.specs.Prelude.{◌≡◌, IfOk};

    fn copied(&self, alloc: Global) -> Result<Self, AllocError>
        ensures { IfOk result (λ x. x ≡ self.now) };
}

fn copied_all<T: Copied + Drop>(
    alloc: Global,
    items: &Sequence<T>,
) -> Result<Sequence<T>, AllocError>
    ensures { IfOk result (λ xs. xs ≡ items.now) }
{
    let items = items.as_slice();
    let mut copy = Vec::with_capacity(alloc, items.len())?;
    for item in items {
        copy.push(item.copied(alloc)?)?;
    }
    Ok(Sequence::new(copy))
}

impl Copied for Label {
    fn copied(&self, alloc: Global) -> Result<Self, AllocError> {
        self.copy(alloc)
    }
}

impl Copied for ValType {
    fn copied(&self, _alloc: Global) -> Result<Self, AllocError> {
        Ok(*self)
    }
}

impl Copied for TypeId {
    fn copied(&self, _alloc: Global) -> Result<Self, AllocError> {
        Ok(*self)
    }
}

impl Copied for FunctionId {
    fn copied(&self, _alloc: Global) -> Result<Self, AllocError> {
        Ok(*self)
    }
}

impl Copied for WorldItem {
    fn copied(&self, _alloc: Global) -> Result<Self, AllocError> {
        Ok(*self)
    }
}

impl Copied for Parameter {
    fn copied(&self, alloc: Global) -> Result<Self, AllocError> {
        Ok(Parameter {
            name: self.name.copy(alloc)?,
            ty: self.ty,
        })
    }
}

impl Copied for Field {
    fn copied(&self, alloc: Global) -> Result<Self, AllocError> {
        Ok(Field {
            name: self.name.copy(alloc)?,
            ty: self.ty,
        })
    }
}

impl Copied for Case {
    fn copied(&self, alloc: Global) -> Result<Self, AllocError> {
        Ok(Case {
            name: self.name.copy(alloc)?,
            ty: self.ty,
        })
    }
}

impl Copied for TypeDefKind {
    fn copied(&self, alloc: Global) -> Result<Self, AllocError> {
        Ok(match self {
            TypeDefKind::Use(target) => TypeDefKind::Use(*target),
            TypeDefKind::Alias(target) => TypeDefKind::Alias(*target),
            TypeDefKind::List(element) => TypeDefKind::List(*element),
            TypeDefKind::Option(payload) => TypeDefKind::Option(*payload),
            TypeDefKind::Result(ok, error) => TypeDefKind::Result(*ok, *error),
            TypeDefKind::Tuple(members) => TypeDefKind::Tuple(copied_all(alloc, members)?),
            TypeDefKind::Record(fields) => TypeDefKind::Record(copied_all(alloc, fields)?),
            TypeDefKind::Variant(cases) => TypeDefKind::Variant(copied_all(alloc, cases)?),
            TypeDefKind::Enum(names) => TypeDefKind::Enum(copied_all(alloc, names)?),
            TypeDefKind::Flags(labels) => TypeDefKind::Flags(copied_all(alloc, labels)?),
        })
    }
}

impl Copied for TypeName {
    fn copied(&self, alloc: Global) -> Result<Self, AllocError> {
        Ok(TypeName {
            interface: self.interface,
            name: self.name.copy(alloc)?,
        })
    }
}

impl Copied for TypeDef {
    fn copied(&self, alloc: Global) -> Result<Self, AllocError> {
        let name = match &self.name {
            Some(name) => Some(name.copied(alloc)?),
            None => None,
        };
        Ok(TypeDef {
            name,
            kind: self.kind.copied(alloc)?,
        })
    }
}

impl Copied for Function {
    fn copied(&self, alloc: Global) -> Result<Self, AllocError> {
        Ok(Function {
            owner: self.owner,
            name: self.name.copy(alloc)?,
            params: copied_all(alloc, &self.params)?,
            result: self.result,
        })
    }
}

impl Copied for Definition {
    fn copied(&self, alloc: Global) -> Result<Self, AllocError> {
        Ok(match self {
            Definition::Type(definition) => Definition::Type(definition.copied(alloc)?),
            Definition::Function(function) => Definition::Function(function.copied(alloc)?),
        })
    }
}

impl Copied for Interface {
    fn copied(&self, alloc: Global) -> Result<Self, AllocError> {
        Ok(Interface {
            package: self.package,
            name: self.name.copy(alloc)?,
            uses: copied_all(alloc, &self.uses)?,
            types: copied_all(alloc, &self.types)?,
            functions: copied_all(alloc, &self.functions)?,
        })
    }
}

impl Copied for PackageName {
    fn copied(&self, alloc: Global) -> Result<Self, AllocError> {
        Ok(PackageName {
            namespace: self.namespace.copy(alloc)?,
            name: self.name.copy(alloc)?,
            version: copy_version(&self.version)?,
        })
    }
}

impl Copied for World {
    fn copied(&self, alloc: Global) -> Result<Self, AllocError> {
        Ok(World {
            package: self.package,
            name: self.name.copy(alloc)?,
            items: copied_all(alloc, &self.items)?,
        })
    }
}

/// The same package under the same ids.
pub fn copy_of(alloc: Global, table: &Resolve) -> Result<Resolve, AllocError>
    ensures { IfOk result (λ r. IsSamePackage r table.now) }
{
    Ok(Resolve {
        packages: copied_all(alloc, &table.packages)?,
        interfaces: copied_all(alloc, &table.interfaces)?,
        worlds: copied_all(alloc, &table.worlds)?,
        definitions: copied_all(alloc, &table.definitions)?,
    })
}
