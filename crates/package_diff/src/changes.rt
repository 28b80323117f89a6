//! What changed, item by item.
ghost use Rattle.std.specs.Prelude.{◌≡◌, ◌↔◌, ◌+◌, ◌++◌, min, if◌then◌else◌, true, IfSome, IsSomeAnd, IsTrue};
ghost use Rattle.std.specs.Option.{ForSome};
ghost use Rattle.package_diff.specs.Calls.{AreCalledAlike, verdict};

use crate::calling::{Side, Versions};
use crate::items::{Crossing, Item, items_of};
use atoms::{KeyedState, NameKey};
use indexmap::IndexMap;
use std::alloc::{AllocError, Global};
use tables::{FunctionId, Resolve};
use text_builder::TextBuilder;

/// What changed.
#[derive(Drop)]
pub struct Changes {
    /// A line for each item that changed, with lines about it. No text if nothing changed.
    pub text: String,
    /// How many functions the old package has.
    pub functions: usize,
    /// How many of them a host that was built for it can't call any more.
    pub lost: usize,
}

/// Items by their names.
type Places = IndexMap<String, usize, KeyedState>;

fn places_of(alloc: Global, items: &[Item], keyed: KeyedState) -> Result<Places, AllocError> {
    let mut places = IndexMap::with_hasher(alloc, keyed);
    for (place, item) in items.iter().enumerate() {
        places.insert(item.name.clone()?, place)?;
    }
    Ok(places)
}

/// Hashers with a key of the names of two tables.
fn keyed_by(old: &Resolve, new: &Resolve) -> KeyedState {
    let mut key = NameKey::new();
    for interface in old.interfaces.as_slice() {
        key.write(interface.name.as_bytes());
    }
    for interface in new.interfaces.as_slice() {
        key.write(interface.name.as_bytes());
    }
    key.state()
}

/// Whether a host that was built for the old package can call a function, in words.
fn verdict_words(can: bool) -> &'static str
    ensures { result.now ≡ verdict can }
{
    if can {
        "    a host built for the old package can call it\n"
    } else {
        "    a host built for the old package can't call it\n"
    }
}

/// The changes between two packages while they are compared.
#[derive(Drop)]
struct Comparison<'a> {
    versions: &'a Versions<'a>,
    /// A line for each item that changed, with lines about it.
    text: TextBuilder,
    /// How many functions the old package has.
    functions: usize,
    /// How many of them a host that was built for it can't call any more.
    lost: usize,
}

impl Comparison<'_> {
    /// Says which core signatures a function had and has, if they differ.
    fn push_signatures(&mut self, old: FunctionId, new: FunctionId)
        ensures { self.new.lost ≡ self.old.lost }
    {
        let was = self.versions.old.signatures(old);
        let is = self.versions.new.signatures(new);
        let (Some(was), Some(is)) = (was, is) else {
            return;
        };
        if was.are_those_of(&is) {
            return;
        }
        let text = &mut self.text;
        text.push("    its core signatures were ");
        was.push(text);
        text.push("\n    and are ");
        is.push(text);
        text.push("\n");
    }

    /// Says of a function whether a host that was built for the old package can call it. If not, it counts as lost.
    fn push_verdict(&mut self, old: FunctionId, new: FunctionId) -> bool
        ensures alike { IsTrue result ↔ AreCalledAlike self.old.versions.now.old.table.now old
            self.old.versions.now.new.table.now new }
        ensures text { IfSome self.new.text (λ all. IsSomeAnd self.old.text (λ before.
            all ≡ before ++ verdict result)) }
        ensures lost { self.new.lost
            ≡ (if result then self.old.lost else min usize.MAX (self.old.lost + 1)) }
    {
        let can = self.versions.are_called_alike(old, new);
        if !can {
            self.lost = self.lost.saturating_add(1);
        }
        self.text.push(verdict_words(can));
        can
    }

    /// Says of a function whether a host that was built for the old package can call it, and if not, how it changed.
    fn push_call(&mut self, item: &Item, other: &Item)
        ensures kept { ForSome item.now.function (λ f. ForSome other.now.function (λ g.
            AreCalledAlike self.old.versions.now.old.table.now f self.old.versions.now.new.table.now g
            → (IfSome self.new.text (λ all. IsSomeAnd self.old.text (λ before. all ≡ before ++ verdict true)))
            × (self.new.lost ≡ self.old.lost))) }
        ensures lost { ForSome item.now.function (λ f. ForSome other.now.function (λ g.
            ¬ AreCalledAlike self.old.versions.now.old.table.now f self.old.versions.now.new.table.now g
            → self.new.lost ≡ min usize.MAX (self.old.lost + 1))) }
    {
        let (Some(old), Some(new)) = (item.function, other.function) else {
            return;
        };
        if self.push_verdict(old, new) {
            return;
        }
        self.push_signatures(old, new);
    }

    /// Tells an item that both packages have, if it changed.
    fn push_kept(&mut self, item: &Item, other: &Item) {
        let (was, is) = (item.words.as_str(), other.words.as_str());
        let is_spelled_alike = was == is;
        if is_spelled_alike && item.crossing == other.crossing {
            return;
        }
        self.text.push_three(item.name.as_str(), ": ", was);
        self.text.push("\n");
        if is_spelled_alike {
            self.text.push("    a type that it names changed\n");
        } else {
            self.text.push_three("    now ", is, "\n");
        }
        self.push_call(item, other);
    }

    /// Tells an item that the new package lacks.
    fn push_removed(&mut self, item: &Item) {
        if item.function.is_some() {
            self.lost = self.lost.saturating_add(1);
        }
        let (name, was) = (item.name.as_str(), item.words.as_str());
        self.text.push_three(name, ": removed, it was ", was);
        self.text.push("\n");
    }

    /// Tells what happened to the items of the old package.
    fn push_old(&mut self, items: &[Item], others: &[Item], places: &Places) {
        for item in items {
            if matches!(item.crossing, Crossing::Function(_)) {
                self.functions = self.functions.saturating_add(1);
            }
            let place = places.get(item.name.as_str()).copied();
            match place.and_then(|place| others.get(place)) {
                Some(other) => self.push_kept(item, other),
                None => self.push_removed(item),
            }
        }
    }

    /// Tells the items that the old package lacks.
    fn push_added(&mut self, items: &[Item], places: &Places) {
        for item in items {
            let (name, is) = (item.name.as_str(), item.words.as_str());
            if places.get(name).is_none() {
                self.text.push_three(name, ": added, ", is);
                self.text.push("\n");
            }
        }
    }

    /// What changed.
    fn finish(self) -> Result<Changes, AllocError> {
        let (functions, lost) = (self.functions, self.lost);
        match self.text.finish() {
            Ok(text) => Ok(Changes {
                text,
                functions,
                lost,
            }),
            Err(error) => Err(error),
        }
    }
}

/// What changed from the last package of one table to that of another one.
pub fn changes_of(alloc: Global, old: Side<'_>, new: Side<'_>) -> Result<Changes, AllocError> {
    let keyed = keyed_by(old.table, new.table);
    let versions = Versions::of(alloc, keyed, old, new)?;
    let items = items_of(alloc, old.table, versions.old_rows.as_slice())?;
    let others = items_of(alloc, new.table, versions.new_rows.as_slice())?;
    let (items, others) = (items.as_slice(), others.as_slice());
    let mut comparison = Comparison {
        versions: &versions,
        text: TextBuilder::new(alloc),
        functions: 0,
        lost: 0,
    };
    comparison.push_old(items, others, &places_of(alloc, others, keyed)?);
    comparison.push_added(others, &places_of(alloc, items, keyed)?);
    comparison.finish()
}
