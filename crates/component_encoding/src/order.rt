//! A world completed: the interfaces that its own ones use stand among its imports and exports, each before its users.

use crate::error::EncodeError;
use crate::spelling::full_name;
use std::alloc::{AllocError, Global};
use std::collections::BTreeSet;
use tables::{
    Definition, Direction, InterfaceId, Name, Resolve, TypeDefKind, TypeId, World, WorldItem,
    WorldItemKind,
};

/// Why an interface is visited.
#[derive(Clone, Copy)]
enum Reason {
    /// An import of the world needs it.
    Imported,
    /// An export of the world needs it as an import.
    Required,
    /// It is among the exports of the world.
    Exported,
}

/// An interface whose uses are visited, and how many of them were.
#[derive(Clone, Copy)]
struct Visit {
    interface: InterfaceId,
    reason: Reason,
    passed: usize,
}

/// Interfaces in the order in which they are imported and exported.
#[derive(Drop)]
pub struct Order<'a> {
    alloc: Global,
    resolve: &'a Resolve,
    pub imports: Vec<InterfaceId>,
    pub exports: Vec<InterfaceId>,
    /// The interfaces that the world itself exports.
    wanted: BTreeSet<u32>,
    /// By reason, the interfaces that were visited.
    imported: BTreeSet<u32>,
    required: BTreeSet<u32>,
    exported: BTreeSet<u32>,
    /// Each uses the next one.
    path: Vec<Visit>,
}

/// The interface that a type has a name in.
fn interface_of(resolve: &Resolve, id: TypeId) -> Option<InterfaceId> {
    match resolve.definitions.as_slice().get(id.0 as usize) {
        Some(Definition::Type(definition)) => match &definition.name {
            Some(name) => Some(name.interface),
            None => None,
        },
        _ => None,
    }
}

/// The interface that the use at this place of an interface's uses is of.
fn used_interface(resolve: &Resolve, interface: InterfaceId, place: usize) -> Option<InterfaceId> {
    let interface = resolve.interfaces.as_slice().get(interface.0 as usize)?;
    let id = interface.uses.as_slice().get(place)?;
    match resolve.definitions.as_slice().get(id.0 as usize) {
        Some(Definition::Type(definition)) => match definition.kind {
            TypeDefKind::Use(target) => interface_of(resolve, target),
            _ => None,
        },
        _ => None,
    }
}

/// The full name of an interface of the table.
fn name_of(alloc: Global, resolve: &Resolve, id: InterfaceId) -> Result<Name, AllocError> {
    match resolve.interfaces.as_slice().get(id.0 as usize) {
        Some(interface) => full_name(alloc, resolve, interface.package, &interface.name),
        None => Ok(Name::new(String::new(alloc))),
    }
}

impl<'a> Order<'a> {
    fn new(alloc: Global, resolve: &'a Resolve) -> Order<'a> {
        Order {
            alloc,
            resolve,
            imports: Vec::new(alloc),
            exports: Vec::new(alloc),
            wanted: BTreeSet::new(alloc),
            imported: BTreeSet::new(alloc),
            required: BTreeSet::new(alloc),
            exported: BTreeSet::new(alloc),
            path: Vec::new(alloc),
        }
    }

    /// Refuses an interface that exports need both ways.
    fn refuse(&self, interface: InterfaceId) -> Result<bool, EncodeError> {
        let name = name_of(self.alloc, self.resolve, interface)?;
        Err(EncodeError::BothWays(name))
    }

    /// Whether an interface was not visited yet for this reason. It is from now on.
    fn is_new(&mut self, interface: InterfaceId, reason: Reason) -> Result<bool, EncodeError> {
        match reason {
            Reason::Imported => Ok(self.imported.insert(interface.0)?),
            Reason::Required if self.exported.contains(&interface.0) => self.refuse(interface),
            Reason::Required => Ok(self.required.insert(interface.0)?),
            Reason::Exported if self.required.contains(&interface.0) => self.refuse(interface),
            Reason::Exported => Ok(self.exported.insert(interface.0)?),
        }
    }

    /// Puts an interface at the end of the path, unless it was visited.
    fn enter(&mut self, interface: InterfaceId, reason: Reason) -> Result<(), EncodeError> {
        if self.is_new(interface, reason)? {
            self.path.push(Visit {
                interface,
                reason,
                passed: 0,
            })?;
        }
        Ok(())
    }

    /// Puts an interface, all of whose uses were visited, behind the imports or the exports.
    fn leave(&mut self, visit: Visit) -> Result<(), EncodeError> {
        match visit.reason {
            Reason::Exported => self.exports.push(visit.interface)?,
            Reason::Imported => self.imports.push(visit.interface)?,
            Reason::Required => {
                if self.imported.insert(visit.interface.0)? {
                    self.imports.push(visit.interface)?;
                }
            }
        }
        Ok(())
    }

    /// Why an interface is visited that one uses which is visited for this reason.
    fn reason_behind(&self, reason: Reason, used: InterfaceId) -> Reason {
        match reason {
            Reason::Exported if !self.wanted.contains(&used.0) => Reason::Required,
            reason => reason,
        }
    }

    /// Visits the next use of the last interface of the path, or leaves it.
    fn step(&mut self) -> Result<(), EncodeError> {
        let Some(visit) = self.path.pop() else {
            return Ok(());
        };
        let Some(used) = used_interface(self.resolve, visit.interface, visit.passed) else {
            return self.leave(visit);
        };
        self.path.push(Visit {
            interface: visit.interface,
            reason: visit.reason,
            passed: visit.passed.saturating_add(1),
        })?;
        self.enter(used, self.reason_behind(visit.reason, used))
    }

    /// Visits an interface, behind those that it uses. An interface is entered once at most for each of two reasons,
    /// and then each of its uses is passed once, and it is left.
    fn visit(&mut self, interface: InterfaceId, reason: Reason) -> Result<(), EncodeError> {
        let resolve = self.resolve;
        let uses = resolve.definitions.len();
        let steps = uses.saturating_add(resolve.interfaces.len());
        self.enter(interface, reason)?;
        for _ in 0..steps.saturating_mul(2) {
            if self.path.is_empty() {
                return Ok(());
            }
            self.step()?;
        }
        Ok(())
    }

    /// Visits what a world imports, and notes what it exports.
    fn visit_imports(&mut self, items: &[WorldItem]) -> Result<(), EncodeError> {
        for item in items {
            if let WorldItemKind::Interface(id) = item.kind {
                match item.direction {
                    Direction::Import => self.visit(id, Reason::Imported)?,
                    Direction::Export => {
                        self.wanted.insert(id.0)?;
                    }
                }
            }
        }
        Ok(())
    }

    fn visit_exports(&mut self, items: &[WorldItem]) -> Result<(), EncodeError> {
        for item in items {
            if let WorldItemKind::Interface(id) = item.kind
                && item.direction == Direction::Export
            {
                self.visit(id, Reason::Exported)?;
            }
        }
        Ok(())
    }
}

/// The interfaces of a completed world.
pub fn order_of<'a>(
    alloc: Global,
    resolve: &'a Resolve,
    world: &World,
) -> Result<Order<'a>, EncodeError> {
    let mut order = Order::new(alloc, resolve);
    let items = world.items.as_slice();
    order.visit_imports(items)?;
    order.visit_exports(items)?;
    Ok(order)
}

/// An interface behind all that it uses, directly or not.
pub fn uses_of(
    alloc: Global,
    resolve: &Resolve,
    interface: InterfaceId,
) -> Result<Vec<InterfaceId>, EncodeError> {
    let mut order = Order::new(alloc, resolve);
    order.visit(interface, Reason::Imported)?;
    Ok(order.imports)
}
