//! The names of one scope, which must differ in more than the case of their letters.
ghost use Rattle.std.specs.Prelude.{◌≡◌, ◌++◌, ◌∷◌, [], ◌⊎◌, true, false, map, OnOk, IfOk, IfErr, Contains};
ghost use Rattle.std.specs.String.{string_bytes};
ghost use Rattle.package_form.specs.Scope.{lowered, lowered_name};

use arrayvec::ArrayVec;
use atoms::{KeyedState, Label};
use indexmap::IndexSet;
use std::alloc::{AllocError, Global};
use std::marker::Model;
use std::mem::replace;
use tables::{Name, ResolveError};

/// How many names of a scope are compared one by one; where there are more, all stand in a table.
pub const FEW: usize = 16;

/// A name in lower case.
fn lowered(alloc: Global, name: &str) -> Result<String, AllocError>
    ensures { IfOk result (λ s. string_bytes s ≡ lowered name.now) }
{
    let mut lower = String::from_str(alloc, name)?;
    lower.make_ascii_lowercase();
    Ok(lower)
}

/// Names that were met, in lower case, in a table.
#[derive(Drop)]
pub struct NameTable {
    met: IndexSet<String, KeyedState>,
}

impl Model for NameTable {
    ghost use Rattle.std.specs.Prelude.{List, ℕ, map};
    ghost use Rattle.std.specs.String.{string_bytes};

    ghost Value = { List (List ℕ) };

    ghost view = { λ n. map string_bytes n.met.keys };
}

impl NameTable {
    /// No names; those that are met are told apart by hashers with this key.
    pub fn new(alloc: Global, keyed: KeyedState) -> NameTable
        ensures { result ≡ [] }
    {
        NameTable {
            met: IndexSet::with_hasher(alloc, keyed),
        }
    }

    /// Meets a name as it is told, of an interface its full name. 40 where it was met before.
    pub fn meet(&mut self, alloc: Global, name: Name) -> Result<(), ResolveError>
        ensures new { OnOk result (¬ Contains self.old (lowered name)) }
        ensures ok { OnOk result (self.new ≡ self.old ++ lowered name ∷ []) }
        ensures err { IfErr result (λ e. (e ≡ ResolveError.NoMemory)
            ⊎ ((e ≡ ResolveError.Duplicate name) × Contains self.old (lowered name))) }
    {
        if self.insert(lowered(alloc, name.as_str())?)? {
            Ok(())
        } else {
            Err(ResolveError::Duplicate(name))
        }
    }

    fn is_empty(&self) -> bool
        ensures { result ≡ true → self.now ≡ [] }
    {
        self.met.is_empty()
    }

    /// Whether a name in lower case is new; it is met now.
    fn insert(&mut self, name: String) -> Result<bool, ResolveError>
        ensures new { IfOk result (λ is_new. is_new ≡ true → ¬ Contains self.old (string_bytes name)) }
        ensures met_before { IfOk result (λ is_new. is_new ≡ false → Contains self.old (string_bytes name)) }
        ensures after { IfOk result (λ is_new. is_new ≡ true → self.new ≡ self.old ++ string_bytes name ∷ []) }
        ensures err { IfErr result (λ e. e ≡ ResolveError.NoMemory) }
    {
        Ok(self.met.insert(name)?)
    }
}

/// Whether a name has no letter in upper case.
fn is_lower(name: &str) -> bool
    ensures { result ≡ true → lowered name.now ≡ name.now }
{
    let mut is_lower = true;
    for byte in name.as_bytes() {
        is_lower &= !byte.is_ascii_uppercase();
    }
    is_lower
}

/// Names that were met, in lower case, in tables: lent up to the first that isn't in lower case, copied from there on.
#[derive(Drop)]
struct LentTable<'a> {
    lent: IndexSet<&'a str, KeyedState>,
    copied: NameTable,
}

impl<'a> Model for LentTable<'a> {
    ghost use Rattle.std.specs.Prelude.{◌++◌, List, ℕ, map};

    ghost Value = { List (List ℕ) };

    ghost view = { λ n. map (λ s. s.now) n.lent.keys ++ n.copied };
}

impl<'a> LentTable<'a> {
    /// No names; those that are met are told apart by hashers with this key.
    fn new(alloc: Global, keyed: KeyedState) -> LentTable<'a>
        ensures { result ≡ [] }
    {
        LentTable {
            lent: IndexSet::with_hasher(alloc, keyed),
            copied: NameTable::new(alloc, keyed),
        }
    }

    fn is_empty(&self) -> bool
        ensures { result ≡ true → self.now ≡ [] }
    {
        self.lent.is_empty() && self.copied.is_empty()
    }

    /// Whether a name is new; it is met now.
    fn insert(&mut self, alloc: Global, name: &'a str) -> Result<bool, ResolveError>
        ensures new { IfOk result (λ is_new. is_new ≡ true → ¬ Contains self.old (lowered name.now)) }
        ensures met_before { IfOk result (λ is_new. is_new ≡ false → Contains self.old (lowered name.now)) }
        ensures after { IfOk result (λ is_new. is_new ≡ true → self.new ≡ self.old ++ lowered name.now ∷ []) }
        ensures err { IfErr result (λ e. e ≡ ResolveError.NoMemory) }
    {
        if is_lower(name) && self.copied.is_empty() {
            return Ok(self.lent.insert(name)?);
        }
        let name = lowered(alloc, name)?;
        if self.lent.contains(name.as_str()) {
            return Ok(false);
        }
        self.copied.insert(name)
    }

    /// Makes room for so many names.
    fn reserve(&mut self, room: usize) -> Result<(), AllocError>
        ensures { OnOk result (self.new ≡ self.old) }
    {
        self.lent.reserve(room)
    }

    /// Puts in names that all are new. No memory, too, where one isn't.
    fn insert_all(&mut self, alloc: Global, names: &[&'a str]) -> Result<(), ResolveError>
        ensures ok { OnOk result (self.new ≡ self.old ++ map lowered_name names.now) }
        ensures err { IfErr result (λ e. e ≡ ResolveError.NoMemory) }
    {
        for name in names {
            if !self.insert(alloc, name)? {
                return Err(ResolveError::NoMemory);
            }
        }
        Ok(())
    }
}

/// Whether a name is one of these but for the case of its letters.
fn is_among(names: &[&str], name: &str) -> bool
    ensures yes { result ≡ true → Contains (map lowered_name names.now) (lowered name.now) }
    ensures no { result ≡ false → ¬ Contains (map lowered_name names.now) (lowered name.now) }
{
    for met in names {
        if met.eq_ignore_ascii_case(name) {
            return true;
        }
    }
    false
}

/// The names that were met in a scope: a few as they stand, more in a table.
#[derive(Drop)]
pub struct Scope<'a> {
    few: ArrayVec<&'a str, FEW>,
    many: LentTable<'a>,
    /// How many names are awaited, for which the table gets room.
    room: usize,
}

impl<'a> Model for Scope<'a> {
    ghost use Rattle.std.specs.Prelude.{◌++◌, List, ℕ, map};
    ghost use Rattle.package_form.specs.Scope.{lowered_name};

    ghost Value = { List (List ℕ) };

    ghost view = { λ s. map lowered_name s.few.items ++ s.many };
}

impl<'a> Scope<'a> {
    /// No names; those of its table are told apart by hashers with this key.
    pub fn new(alloc: Global, keyed: KeyedState) -> Scope<'a>
        ensures { result ≡ [] }
    {
        Scope::with_room(alloc, keyed, 0)
    }

    /// No names, where about so many are awaited: where these are more than a few, all go into the table.
    pub fn with_room(alloc: Global, keyed: KeyedState, room: usize) -> Scope<'a>
        ensures { result ≡ [] }
    {
        Scope {
            few: ArrayVec::new(),
            many: LentTable::new(alloc, keyed),
            room,
        }
    }

    /// Meets a name. 40 where it was met before.
    #[inline(always)]
    pub fn meet(&mut self, alloc: Global, name: &'a Label) -> Result<(), ResolveError>
        ensures new { OnOk result (¬ Contains self.old (lowered name.now)) }
        ensures ok { OnOk result (self.new ≡ self.old ++ lowered name.now ∷ []) }
        ensures err { IfErr result (λ e. (e ≡ ResolveError.NoMemory)
            ⊎ ((e ≡ ResolveError.Duplicate name.now) × Contains self.old (lowered name.now))) }
    {
        if self.is_new_of_few(name.as_str()) {
            return Ok(());
        }
        self.meet_again_or_in_table(alloc, name)
    }

    /// Whether a name is new where a few stand without a table, and one more may; it is met then.
    #[inline(always)]
    fn is_new_of_few(&mut self, name: &'a str) -> bool
        ensures new { result ≡ true → ¬ Contains self.old (lowered name.now) }
        ensures after { result ≡ true → self.new ≡ self.old ++ lowered name.now ∷ [] }
        ensures same { result ≡ false → self.new ≡ self.old }
    {
        if self.few.len() >= FEW || self.room > FEW || !self.many.is_empty() {
            return false;
        }
        if is_among(self.few.as_slice(), name) {
            return false;
        }
        self.few.push(name);
        true
    }

    /// Meets a name that was met before, or that stands in the table now.
    #[inline(never)]
    fn meet_again_or_in_table(&mut self, alloc: Global, name: &'a Label) -> Result<(), ResolveError>
        ensures new { OnOk result (¬ Contains self.old (lowered name.now)) }
        ensures ok { OnOk result (self.new ≡ self.old ++ lowered name.now ∷ []) }
        ensures err { IfErr result (λ e. (e ≡ ResolveError.NoMemory)
            ⊎ ((e ≡ ResolveError.Duplicate name.now) × Contains self.old (lowered name.now))) }
    {
        if self.insert(alloc, name.as_str())? {
            Ok(())
        } else {
            Err(ResolveError::Duplicate(Name::of(alloc, name)?))
        }
    }

    /// Whether a name is new; it is met now.
    fn insert(&mut self, alloc: Global, name: &'a str) -> Result<bool, ResolveError>
        ensures new { IfOk result (λ is_new. is_new ≡ true → ¬ Contains self.old (lowered name.now)) }
        ensures met_before { IfOk result (λ is_new. is_new ≡ false → Contains self.old (lowered name.now)) }
        ensures after { IfOk result (λ is_new. is_new ≡ true → self.new ≡ self.old ++ lowered name.now ∷ []) }
        ensures err { IfErr result (λ e. e ≡ ResolveError.NoMemory) }
    {
        if is_among(self.few.as_slice(), name) {
            return Ok(false);
        }
        if !self.many.is_empty() {
            return self.many.insert(alloc, name);
        }
        if self.few.len() < FEW && self.room <= FEW {
            self.few.push(name);
            return Ok(true);
        }
        let few = replace(&mut self.few, ArrayVec::new());
        self.many.reserve(self.room)?;
        self.many.insert_all(alloc, few.as_slice())?;
        self.many.insert(alloc, name)
    }
}
