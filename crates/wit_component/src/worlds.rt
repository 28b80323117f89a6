//! The items of a world as declarations of its component type.
ghost use Rattle.std.specs.Prelude.{◌≡◌, ◌≤◌, ◌<◌, ◌+◌, ◌*◌, ◌-◌, ◌++◌, [], map, length, IsTrue, IfOk, OnOk};
ghost use Rattle.std.specs.List.{list_all};
ghost use Rattle.ctype_format.specs.View.{decl_view};
ghost use Rattle.tables.specs.Tables.{is_function_id};
ghost use Rattle.tables.specs.Package.{interface_names};
ghost use Rattle.tables.specs.declared.tables.WorldItemKind.TheVariants as item;
ghost use Rattle.package_form.specs.Ends.{behind_item, behind_items};
ghost use Rattle.package_form.specs.Form.{has_full_names};
ghost use Rattle.wit_component.specs.Worlds.{rows_between, item_declarations, item_place, items_declared, items_place};
ghost use Rattle.wit_component.specs.Worlds.{StandsFrom, StandFrom};
ghost use Rattle.wit_component.specs.ToComponent.{is_labelled};

use crate::names::full_name;
use crate::rows::{RowPlace, directed, outer_alias};
use ctype_bin::{RawDecl, RawDescription};
use std::alloc::{AllocError, Global};
use tables::{Definition, Direction, FunctionId, InterfaceId, Resolve, WorldItem, WorldItemKind};

/// The declarations of a world's items, and the place behind them.
#[derive(Drop)]
struct Declared {
    alloc: Global,
    decls: Vec<RawDecl>,
    place: RowPlace,
}

impl Declared {
    /// Appends the declarations of an interface among a world's items.
    fn push_interface(
        &mut self,
        resolve: &Resolve,
        instances: &[u32],
        way: Direction,
        id: InterfaceId,
    ) -> Result<(), AllocError>
        requires named { IsTrue (has_full_names resolve.now) }
        requires there { id.0 < length resolve.now.interfaces }
        requires instances { length instances.now ≡ length resolve.now.interfaces }
        requires types { self.old.place.types ≤ 1048576 }
        ensures declarations { OnOk result (map decl_view self.new.decls.items ≡ map decl_view self.old.decls.items
            ++ item_declarations (record {
              rows = resolve.now.definitions;
              names = interface_names resolve.now;
              instances = instances.now;
            }) self.old.place 0 way (item.Interface id)) }
        ensures place { OnOk result (self.new.place
            ≡ item_place resolve.now.definitions self.old.place 0 (item.Interface id)) }
    {
        let interface = &resolve.interfaces.as_slice()[id.0 as usize];
        let name = full_name(self.alloc, resolve, interface.package, &interface.name)?;
        self.decls.push(outer_alias(instances[id.0 as usize]))?;
        let index = self.place.pass_alias();
        self.decls
            .push(directed(way, name, RawDescription::Instance(index)))?;
        Ok(())
    }

    /// Appends the declarations of a function among a world's items, whose rows begin at `start`.
    fn push_function(
        &mut self,
        rows: &[Definition],
        start: usize,
        way: Direction,
        id: FunctionId,
    ) -> Result<(), AllocError>
        requires first { start ≤ id.0 }
        requires there { id.0 < length rows.now }
        requires function { IsTrue (is_function_id rows.now id) }
        requires rows { length rows.now ≤ 65535 }
        requires types { self.old.place.types ≤ 524288 }
        requires used { self.old.place.used ≤ 524288 }
        ensures declarations { OnOk result (map decl_view self.new.decls.items ≡ map decl_view self.old.decls.items
            ++ item_declarations (record { rows = rows.now; names = []; instances = [] }) self.old.place start way
            (item.Function id)) }
        ensures place { OnOk result (self.new.place ≡ item_place rows.now self.old.place start (item.Function id)) }
        ensures few { OnOk result (self.new.place.types ≤ self.old.place.types + 2 * (id.0 + 1 - start)) }
        ensures passed { OnOk result (self.new.place.used ≡ self.old.place.used + (id.0 + 1 - start)) }
        ensures labelled { OnOk result (IsTrue (list_all is_labelled (rows_between rows.now start (id.0 + 1)))) }
    {
        let end = id.0 as usize;
        self.place
            .push_rows(self.alloc, &mut self.decls, &rows[start..end])?;
        let row = &rows[end];
        self.place.push_item(self.alloc, &mut self.decls, way, row)?;
        self.place.pass(row)?;
        Ok(())
    }

    /// Appends the declarations of an item, whose rows begin at `start`, and answers where those of the next begin.
    fn push_item(
        &mut self,
        resolve: &Resolve,
        instances: &[u32],
        start: usize,
        item: &WorldItem,
    ) -> Result<usize, AllocError>
        requires named { IsTrue (has_full_names resolve.now) }
        requires instances { length instances.now ≡ length resolve.now.interfaces }
        requires stands { StandsFrom (length resolve.now.interfaces) resolve.now.definitions start item.now.kind }
        requires start { start ≤ length resolve.now.definitions }
        requires rows { length resolve.now.definitions ≤ 65535 }
        requires types { self.old.place.types ≤ 524288 }
        requires used { self.old.place.used ≤ 524288 }
        ensures declarations { OnOk result (map decl_view self.new.decls.items ≡ map decl_view self.old.decls.items
            ++ item_declarations (record {
              rows = resolve.now.definitions;
              names = interface_names resolve.now;
              instances = instances.now;
            }) self.old.place start item.now.direction item.now.kind) }
        ensures place { OnOk result (self.new.place
            ≡ item_place resolve.now.definitions self.old.place start item.now.kind) }
        ensures end { IfOk result (λ end. end ≡ behind_item start item.now.kind) }
        ensures within { IfOk result (λ end. (start ≤ end) × (end ≤ length resolve.now.definitions)) }
        ensures few { IfOk result (λ end. self.new.place.types ≤ self.old.place.types + 1 + 2 * (end - start)) }
        ensures passed { IfOk result (λ end. self.new.place.used ≡ self.old.place.used + (end - start)) }
        ensures labelled { IfOk result (λ end. IsTrue
            (list_all is_labelled (rows_between resolve.now.definitions start end))) }
    {
        match item.kind {
            WorldItemKind::Interface(id) => {
                self.push_interface(resolve, instances, item.direction, id)?;
                Ok(start)
            }
            WorldItemKind::Function(id) => {
                let rows = resolve.definitions.as_slice();
                self.push_function(rows, start, item.direction, id)?;
                Ok(id.0 as usize + 1)
            }
        }
    }
}

/// The declarations of a world's items, whose rows begin at `start`, and the place behind them.
pub fn items_declared(
    alloc: Global,
    resolve: &Resolve,
    instances: &[u32],
    first: RowPlace,
    start: usize,
    items: &[WorldItem],
) -> Result<(Vec<RawDecl>, RowPlace), AllocError>
    requires named { IsTrue (has_full_names resolve.now) }
    requires instances { length instances.now ≡ length resolve.now.interfaces }
    requires stand { StandFrom (length resolve.now.interfaces) resolve.now.definitions start items.now }
    requires start { start ≤ length resolve.now.definitions }
    requires rows { length resolve.now.definitions ≤ 65535 }
    requires items { length items.now ≤ 131070 }
    requires types { first.types ≡ 0 }
    requires used { first.used ≤ 262144 }
    ensures declarations { IfOk result (λ x. map decl_view x.0.items
        ≡ items_declared (record {
          rows = resolve.now.definitions;
          names = interface_names resolve.now;
          instances = instances.now;
        }) first start items.now) }
    ensures place { IfOk result (λ x. x.1 ≡ items_place resolve.now.definitions first start items.now) }
    ensures labelled { OnOk result (IsTrue
        (list_all is_labelled (rows_between resolve.now.definitions start (behind_items start items.now)))) }
{
    let mut declared = Declared {
        alloc,
        decls: Vec::new(alloc),
        place: first,
    };
    let mut start = start;
    for item in items {
        start = declared.push_item(resolve, instances, start, item)?;
    }
    Ok((declared.decls, declared.place))
}
