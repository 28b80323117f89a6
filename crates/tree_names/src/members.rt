//! Names of one scope that stand in members: fields, cases, labels or parameters.
ghost use Rattle.std.specs.Prelude.{◌≡◌, true, false, map, Contains, OnOk, IfErr};
ghost use Rattle.package_form.specs.Scope.{lowered, AreDistinct};
ghost use Rattle.package_form.specs.Distinct.{RefusesNames};

use atoms::{KeyedState, Label};
use package_names::{FEW, Scope};
use std::alloc::Global;
use tables::{Name, ResolveError};
use wit_tokens::wit_syntax::{Case, Field};

/// What stands in a scope under a name.
pub trait HasName {
    ghost use Rattle.std.specs.Prelude.{◌≡◌, List, ℕ};

    ghost name_of: { Self → List ℕ };

    /// Its name.
    fn name(&self) -> &Label
        ensures { result.now ≡ name_of self.now };
}

impl HasName for Label {
    ghost name_of = { λ l. l };

    fn name(&self) -> &Label {
        self
    }
}

impl HasName for Field {
    ghost name_of = { λ f. f.name };

    fn name(&self) -> &Label {
        &self.name
    }
}

impl HasName for Case {
    ghost name_of = { λ c. c.name };

    fn name(&self) -> &Label {
        &self.name
    }
}

/// Whether a name is that of one of these but for the case of its letters.
fn is_among<N: HasName>(members: &[N], name: &Label) -> bool
    ensures yes { result ≡ true → Contains (map lowered (map N.name_of members.now)) (lowered name.now) }
    ensures no { result ≡ false → ¬ Contains (map lowered (map N.name_of members.now)) (lowered name.now) }
{
    let wanted = name.as_str();
    for member in members {
        if member.name().as_str().eq_ignore_ascii_case(wanted) {
            return true;
        }
    }
    false
}

/// 40 for the first of these names that is met again; each is compared with those before it.
fn distinct_few<N: HasName>(alloc: Global, members: &[N]) -> Result<(), ResolveError>
    ensures ok { OnOk result (AreDistinct (map N.name_of members.now)) }
    ensures err { IfErr result (RefusesNames (map N.name_of members.now)) }
{
    for (place, member) in members.iter().enumerate() {
        let name = member.name();
        if is_among(&members[..place], name) {
            return Err(ResolveError::Duplicate(Name::of(alloc, name)?));
        }
    }
    Ok(())
}

/// 40 for the first of these names that is met again.
pub fn distinct_members<N: HasName>(
    alloc: Global,
    keyed: KeyedState,
    members: &[N],
) -> Result<(), ResolveError>
    ensures ok { OnOk result (AreDistinct (map N.name_of members.now)) }
    ensures err { IfErr result (RefusesNames (map N.name_of members.now)) }
{
    if members.len() <= FEW {
        return distinct_few(alloc, members);
    }
    let mut scope = Scope::with_room(alloc, keyed, members.len());
    for member in members {
        scope.meet(alloc, member.name())?;
    }
    Ok(())
}
