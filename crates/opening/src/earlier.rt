//! Any package of those that were opened, and functions of their worlds.
ghost use Rattle.std.specs.Prelude.{◌≡◌, ◌<◌, ◌↔◌, ◌++◌, All, IsTrue, IfOk, IfSome, IfNone, OnOk, OnErr, length};
ghost use Rattle.std.specs.Prelude.{string_bytes};
ghost use Rattle.package_form.specs.Form.{IsInPackageForm};
ghost use Rattle.package_form.specs.Naming.{package_scopes};
ghost use Rattle.package_form.specs.Scope.{AreDistinct};
ghost use Rattle.package_sets.specs.Restricted.{IsRestricted};
ghost use Rattle.package_text.specs.Text.{text_of};
ghost use Rattle.tables.specs.Closed.{IsFunction};
ghost use Rattle.tables.specs.declared.tables.FunctionId.{FunctionId};
ghost use Rattle.tables.specs.declared.tables.Resolve.{Resolve};
ghost use Rattle.wit_component.specs.ToComponent.{ComponentStands};
ghost use Rattle.function_index.specs.Named.{IsNamedOfWorld};

use crate::package::Package;
use ctype_bin::RawComponent;
use function_index::world_function;
use package_adding::{print, table, to_raw};
use std::alloc::{AllocError, Global};
use tables::{Direction, FunctionId, PackageId, Resolve};

impl Package {
    /// Whether one of the packages has this id, which counts them from 0 in the order in which they were opened.
    pub fn is_package(&self, id: PackageId) -> bool
        ensures { IsTrue result ↔ (id.0 < length self.now.resolve.packages) }
    {
        (id.0 as usize) < self.resolve().packages.len()
    }

    /// The table of one of the packages: the interfaces of earlier ones that it reaches, in their order, and after them
    /// its own.
    pub fn table(&self, alloc: Global, id: PackageId) -> Result<Resolve, AllocError>
        requires known { id.0 < length self.now.resolve.packages }
        ensures ok { IfOk result (IsRestricted self.now.resolve id.0) }
        ensures form { IfOk result (λ r. ∥ IsInPackageForm r × All AreDistinct (package_scopes r) ∥₁) }
    {
        table(alloc, self.resolve(), id)
    }

    /// The component type of one of the packages, which begins with the interfaces of earlier ones that it reaches.
    /// (Binary.md)
    pub fn to_raw(&self, alloc: Global, id: PackageId) -> Result<RawComponent, AllocError>
        requires known { id.0 < length self.now.resolve.packages }
        ensures ok { IfOk result (λ raw. (r : Resolve) × IsRestricted self.now.resolve id.0 r × ComponentStands raw r) }
    {
        to_raw(alloc, self.resolve(), id)
    }

    /// Appends the canonical text of one of the packages, in which interfaces of earlier ones go by their paths. If the
    /// host is out of memory, the text is as it was. (WIT.md)
    pub fn print(&self, alloc: Global, id: PackageId, out: &mut String) -> Result<(), AllocError>
        requires known { id.0 < length self.now.resolve.packages }
        ensures ok { OnOk result ((r : Resolve) × IsRestricted self.now.resolve id.0 r
            × (string_bytes out.new ≡ string_bytes out.old ++ text_of r)) }
        ensures same { OnErr result (string_bytes out.new ≡ string_bytes out.old) }
    {
        print(alloc, self.resolve(), id, out)
    }

    /// The function of this name that a world imports or exports, as `side` says, by the full name of the world: one
    /// that is itself an item of the world. (WIT.md, "Item: `world`")
    pub fn world_function(&self, world: &str, side: Direction, name: &str) -> Option<FunctionId>
        ensures found { IfSome result (IsNamedOfWorld self.now.resolve world.now side name.now) }
        ensures function { IfSome result (IsFunction self.now.resolve) }
        ensures none { IfNone result ((f : FunctionId) → ¬ IsNamedOfWorld self.now.resolve world.now side name.now f) }
    {
        world_function(self.resolve(), world, side, name)
    }
}
