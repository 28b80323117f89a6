//! Whether a package has too many type entries.
ghost use Rattle.std.specs.Prelude.{◌≡◌, ◌≤◌, ◌+◌, length, map, sum, nat_lt};
ghost use Rattle.package_form.specs.Entries.{entries_of, entries_at, world_entries};

use tables::{Definition, TypeDefKind, ValType, World, WorldItem, WorldItemKind};

/// The most type entries of a package.
const MAX_ENTRIES: usize = 65_535;

/// The type entries that a definition takes in the package's binary.
fn entries_of(row: &Definition) -> usize
    ensures value { result ≡ entries_of row.now }
    ensures few { result ≤ 3 }
{
    match row {
        Definition::Type(definition) => match (&definition.name, &definition.kind) {
            (None, _) => 1,
            (Some(_), TypeDefKind::Use(_)) => 3,
            (Some(_), TypeDefKind::Alias(ValType::Id(_))) => 1,
            (Some(_), _) => 2,
        },
        Definition::Function(_) => 1,
    }
}

/// The type entries of a world's items: of an interface its alias.
fn items_entries(items: &[WorldItem]) -> usize
    ensures value { result ≡ sum (map entries_at items.now) }
    ensures few { result ≤ length items.now }
{
    let mut total = 0;
    for item in items {
        if let WorldItemKind::Interface(_) = item.kind {
            total += 1;
        }
    }
    total
}

/// Whether these rows have too many type entries, where so many stand before.
fn passes_rows(before: usize, rows: &[Definition]) -> bool
    ensures { result ≡ nat_lt 65535 (before + sum (map entries_of rows.now)) }
{
    let mut total = before;
    for row in rows {
        if total > MAX_ENTRIES {
            return true;
        }
        total += entries_of(row);
    }
    total > MAX_ENTRIES
}

/// Whether a package of so many interfaces, of these worlds and of these rows has too many type entries.
pub fn passes_entries(interfaces: usize, worlds: &[World], rows: &[Definition]) -> bool
    requires { interfaces ≤ 9223372036854775807 }
    ensures { result ≡ nat_lt 65535 (1 + interfaces
        + (sum (map world_entries worlds.now) + sum (map entries_of rows.now))) }
{
    let mut total = 1 + interfaces;
    for world in worlds {
        if total > MAX_ENTRIES {
            return true;
        }
        total += 1 + items_entries(world.items.as_slice());
    }
    passes_rows(total, rows)
}
