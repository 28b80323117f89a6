//! What a scope has so far.
ghost use Rattle.std.specs.Prelude.{◌≡◌, ◌≤◌, ◌<◌, length};
ghost use Rattle.ctype_format.specs.Grammar.{new_scope, with_type, with_instance, with_entries, types_at};

/// The type entries of all scopes together.
pub const MAX_ENTRIES: u32 = 65_535;

/// How many type entries and instances a scope has, and how many type entries all scopes have.
#[derive(Clone, Copy)]
pub struct Scope {
    pub types: u32,
    pub instances: u32,
    pub entries: u32,
}

/// A scope with nothing, where all scopes have so many type entries.
pub fn new_scope(entries: u32) -> Scope
    ensures { result ≡ new_scope entries }
{
    Scope {
        types: 0,
        instances: 0,
        entries,
    }
}

/// The scope with one more type entry.
pub fn with_type(scope: Scope) -> Scope
    requires types { scope.types < 65535 }
    requires entries { scope.entries < 65535 }
    ensures { result ≡ with_type scope }
{
    Scope {
        types: scope.types + 1,
        instances: scope.instances,
        entries: scope.entries + 1,
    }
}

/// The scope with one more instance.
pub fn with_instance(scope: Scope) -> Scope
    requires { scope.instances < 4294967295 }
    ensures { result ≡ with_instance scope }
{
    Scope {
        types: scope.types,
        instances: scope.instances + 1,
        entries: scope.entries,
    }
}

/// The scope with one more type entry, where all scopes have so many then.
pub fn with_entries(scope: Scope, entries: u32) -> Scope
    requires { scope.types < 65535 }
    ensures { result ≡ with_entries scope entries }
{
    Scope {
        types: scope.types + 1,
        instances: scope.instances,
        entries,
    }
}

/// How many type entries the scope has that so many scopes stand inside of.
pub fn types_at(around: &[u32], types: u32, count: u32) -> u32
    requires { count ≤ length around.now }
    ensures { result ≡ types_at around.now types count }
{
    if count == 0 {
        return types;
    }
    around[around.len() - count as usize]
}
