//! A verdict for each function of the older package.
ghost use Rattle.std.specs.Prelude.{◌≡◌, ◌↔◌, None, Some, All, IfOk, IfSome, IsTrue, MatchOption, map, slice_get};
ghost use Rattle.tables.specs.Closed.{IsFunction};
ghost use Rattle.tables.specs.declared.tables.FunctionId.{FunctionId};
ghost use Rattle.function_index.specs.Index.{IsIndexOf};
ghost use Rattle.package_changes.specs.Comparing.{AreRight};
ghost use Rattle.package_changes.specs.Judging.{own_functions};
ghost use Rattle.package_changes.specs.Pairs.{IsJudged, IsPartner, are_of_one_name, is_lost, last_package, lost};
ghost use Rattle.package_changes.specs.Verdicts.{IsVerdict, labelled_function};

use crate::comparing::Comparer;
use crate::edition::Edition;
use crate::known::Known;
use crate::places::{Place, Standing, own_functions, role_of};
use crate::verdicts::{Role, Verdict};
use function_index::{FunctionIndex, world_function};
use std::alloc::{AllocError, Global};
use tables::{FunctionId, Interface, PackageName, Resolve, World};

/// What is said of a function of the older package.
#[derive(Clone, Copy, Debug)]
pub struct Judged {
    pub place: Place,
    /// What a host of the older package does with it.
    pub role: Role,
    /// The function that it became. None if it is gone.
    pub new: Option<FunctionId>,
    pub verdict: Verdict,
}

/// The last package of a table.
pub fn last_package(table: &Resolve) -> Option<&PackageName>
    ensures { MatchOption result (last_package table.now ≡ None) (λ p. last_package table.now ≡ Some p.now) }
{
    let packages = table.packages.as_slice();
    packages.get(packages.len().saturating_sub(1))
}

fn interface_at(table: &Resolve, place: usize) -> Option<&Interface>
    ensures { MatchOption result (slice_get table.now.interfaces place ≡ None)
        (λ i. slice_get table.now.interfaces place ≡ Some i.now) }
{
    table.interfaces.as_slice().get(place)
}

fn world_at(table: &Resolve, place: usize) -> Option<&World>
    ensures { MatchOption result (slice_get table.now.worlds place ≡ None)
        (λ w. slice_get table.now.worlds place ≡ Some w.now) }
{
    table.worlds.as_slice().get(place)
}

/// Finds what functions became.
#[derive(Drop)]
struct Pairs<'a> {
    alloc: Global,
    old: &'a Resolve,
    new: &'a Resolve,
    index: FunctionIndex,
}

impl Pairs<'_> {
    /// What a function became, if it is not gone.
    fn partner(&self, place: Place) -> Result<Option<FunctionId>, AllocError>
        requires { IsIndexOf self.now.new.now self.now.index }
        ensures pair { IfOk result (λ g. MatchOption g ((g : FunctionId) → ¬ IsPartner self.now.old.now self.now.new.now place g)
            (IsPartner self.now.old.now self.now.new.now place)) }
        ensures function { IfOk result (λ g. IfSome g (IsFunction self.now.new.now)) }
    {
        let Some(was) = last_package(self.old) else {
            return Ok(None);
        };
        let Some(is) = last_package(self.new) else {
            return Ok(None);
        };
        if !are_versions(was, is) {
            return Ok(None);
        }
        if !self.old.is_function(place.function) {
            return Ok(None);
        }
        let name = self.old.signature(place.function).name.as_str();
        match place.standing {
            Standing::Interface(i) => match interface_at(self.old, i) {
                Some(interface) => {
                    let full_name = is.full_name(self.alloc, &interface.name)?;
                    Ok(self.index.function(full_name.as_str(), name))
                }
                None => Ok(None),
            },
            Standing::World(i, side) => match world_at(self.old, i) {
                Some(world) => {
                    let full_name = is.full_name(self.alloc, &world.name)?;
                    Ok(world_function(self.new, full_name.as_str(), side, name))
                }
                None => Ok(None),
            },
        }
    }
}

/// Whether two packages have one name, but for their versions.
pub fn are_versions(one: &PackageName, other: &PackageName) -> bool
    ensures test { result ≡ are_of_one_name one.now other.now }
    ensures named { IsTrue result ↔ ((one.now.namespace ≡ other.now.namespace) × (one.now.name ≡ other.now.name)) }
{
    one.namespace.as_bytes() == other.namespace.as_bytes()
        && one.name.as_bytes() == other.name.as_bytes()
}

/// The verdict of a function that is there in both tables, to a host in this role.
fn verdict_of_pair(
    comparer: &Comparer<'_>,
    known: &mut Known,
    role: Role,
    pair: FunctionPair,
) -> Result<Verdict, AllocError>
    requires old { IsFunction comparer.now.old.table.now pair.old }
    requires new { IsFunction comparer.now.new.table.now pair.new }
    requires right { AreRight comparer.now.old.table.now comparer.now.new.table.now known.old }
    ensures ok { IfOk result (IsVerdict role (labelled_function comparer.now.old.table.now pair.old)
        (labelled_function comparer.now.new.table.now pair.new)) }
    ensures right { AreRight comparer.now.old.table.now comparer.now.new.table.now known.new }
{
    let old = comparer.old.table.signature(pair.old);
    let new = comparer.new.table.signature(pair.new);
    let inputs = comparer.compare_parameters(known, old.params.as_slice(), new.params.as_slice())?;
    let output = comparer.compare_part(known, old.result, new.result)?;
    Ok(role.verdict_of(inputs, output))
}

/// A function of the older table and one of the newer table.
#[derive(Clone, Copy)]
struct FunctionPair {
    old: FunctionId,
    new: FunctionId,
}

/// A verdict for each function of the last package of the older table, in the order of the table: what a host that was
/// built for it can do with the last package of the newer table.
pub fn verdicts_of(
    alloc: Global,
    old: Edition<'_>,
    new: Edition<'_>,
) -> Result<Vec<Judged>, AllocError>
    ensures functions { IfOk result (λ js. map (λ j. j.place) js.items ≡ own_functions old.entry.table.now) }
    ensures judged { IfOk result (λ js. All (IsJudged old.entry.table.now new.entry.table.now) js.items) }
{
    let comparer = Comparer { alloc, old, new };
    let pairs = Pairs {
        alloc,
        old: old.table,
        new: new.table,
        index: FunctionIndex::of(alloc, new.table)?,
    };
    let places = own_functions(alloc, old.table)?;
    judged_places(&comparer, &pairs, places.as_slice())
}

/// What is said of these functions of the older package.
fn judged_places(
    comparer: &Comparer<'_>,
    pairs: &Pairs<'_>,
    places: &[Place],
) -> Result<Vec<Judged>, AllocError>
    requires old { pairs.now.old.now ≡ comparer.now.old.table.now }
    requires new { pairs.now.new.now ≡ comparer.now.new.table.now }
    requires index { IsIndexOf pairs.now.new.now pairs.now.index }
    ensures places { IfOk result (λ js. map (λ j. j.place) js.items ≡ places.now) }
    ensures judged { IfOk result (λ js. All (IsJudged comparer.now.old.table.now comparer.now.new.table.now) js.items) }
{
    let mut known = Known::new(comparer.alloc);
    let mut judged = Vec::new(comparer.alloc);
    for place in places {
        judged.push(judged_place(comparer, &mut known, pairs, *place)?)?;
    }
    Ok(judged)
}

/// What is said of a function of the older package.
fn judged_place(
    comparer: &Comparer<'_>,
    known: &mut Known,
    pairs: &Pairs<'_>,
    place: Place,
) -> Result<Judged, AllocError>
    requires old { pairs.now.old.now ≡ comparer.now.old.table.now }
    requires new { pairs.now.new.now ≡ comparer.now.new.table.now }
    requires index { IsIndexOf pairs.now.new.now pairs.now.index }
    requires right { AreRight comparer.now.old.table.now comparer.now.new.table.now known.old }
    ensures place { IfOk result (λ j. j.place ≡ place) }
    ensures judged { IfOk result (IsJudged comparer.now.old.table.now comparer.now.new.table.now) }
    ensures right { AreRight comparer.now.old.table.now comparer.now.new.table.now known.new }
{
    let role = role_of(comparer.old.table, place.standing);
    let new = pairs.partner(place)?;
    let verdict = match new {
        Some(new) => {
            let pair = FunctionPair {
                old: place.function,
                new,
            };
            verdict_of_pair(comparer, known, role, pair)?
        }
        None => Verdict::Removed,
    };
    Ok(Judged {
        place,
        role,
        new,
        verdict,
    })
}

impl Judged {
    /// Whether a host of the older package does without the function as it was.
    pub fn is_lost(&self) -> bool
        ensures { result ≡ is_lost self.now }
    {
        self.verdict.is_lost(self.role)
    }
}

/// How many functions a host that was built for the older package can't deal with any more.
pub fn lost(judged: &[Judged]) -> usize
    ensures { result ≡ lost judged.now }
{
    judged.iter().filter(|judged| judged.is_lost()).count()
}
