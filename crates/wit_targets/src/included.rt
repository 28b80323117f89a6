//! Names of worlds, with those that worlds include.
use crate::finding::Found;
use atoms::KeyedState;
use indexmap::IndexMap;
use std::alloc::{AllocError, Global};
use wit_names::{NameId, ScopeId};
use wit_scopes::Scopes;

/// A name that is looked for in a world: among its exports too, or not.
#[derive(Clone, Copy, PartialEq, Eq, Hash)]
pub(crate) struct Asked {
    pub scope: ScopeId,
    pub name: NameId,
    pub has_exports: bool,
}

/// A world that another one includes, and the include of this that is next to be looked at.
#[derive(Clone, Copy)]
struct Entry {
    world: Option<ScopeId>,
    next: Option<usize>,
}

/// A scope that is to be looked at, and the one that includes it, by its place on the way.
#[derive(Clone, Copy)]
struct Step {
    scope: ScopeId,
    from: Option<usize>,
}

/// The worlds that worlds include, and what was found in them before.
#[derive(Drop)]
pub(crate) struct Included {
    entries: Vec<Entry>,
    /// The last include of each scope.
    lasts: Vec<Option<usize>>,
    /// The last search that came to each scope.
    searches: Vec<usize>,
    search: usize,
    known: IndexMap<Asked, Found, KeyedState>,
    /// How many more scopes are looked at, for all searches.
    left: usize,
}

/// How many scopes are looked at for each name of a set, on average, until nothing more is told.
const STEPS: usize = 8;

impl Included {
    /// The worlds that are included, by their scopes, which are known of each include whose world is.
    pub(crate) fn of(
        alloc: Global,
        keyed: KeyedState,
        scopes: &Scopes<'_>,
        worlds: &[Option<ScopeId>],
    ) -> Result<Included, AllocError> {
        let count = scopes.scopes().len();
        let names = scopes
            .references()
            .len()
            .saturating_add(scopes.declarations().len());
        let mut included = Included {
            entries: Vec::with_capacity(alloc, worlds.len())?,
            lasts: Vec::with_capacity(alloc, count)?,
            searches: Vec::with_capacity(alloc, count)?,
            search: 0,
            known: IndexMap::with_hasher(alloc, keyed),
            left: names.saturating_mul(STEPS),
        };
        for _turn in 0..count {
            included.lasts.push(None)?;
            included.searches.push(0)?;
        }
        for (include, world) in scopes.includes().iter().zip(worlds) {
            included.put(include.scope, *world)?;
        }
        Ok(included)
    }

    /// Adds an include of a scope.
    fn put(&mut self, scope: ScopeId, world: Option<ScopeId>) -> Result<(), AllocError> {
        let index = self.entries.len();
        let Some(last) = self.lasts.get_mut(scope.0) else {
            return Ok(());
        };
        let next = *last;
        *last = Some(index);
        self.entries.push(Entry { world, next })?;
        Ok(())
    }

    /// Whether this search comes to a scope for the first time. It was there then.
    fn is_first(&mut self, scope: ScopeId) -> bool {
        let search = self.search;
        match self.searches.get_mut(scope.0) {
            Some(last) if *last != search => {
                *last = search;
                true
            }
            _ => false,
        }
    }
}

/// What is found in one scope, without what it includes.
fn found_here(scopes: &Scopes<'_>, asked: Asked) -> Option<Found> {
    if let Some(id) = scopes.declared(asked.scope, asked.name) {
        return Some(Found::Declaration(id));
    }
    if !asked.has_exports {
        return None;
    }
    Some(Found::Declaration(scopes.exported(asked.scope, asked.name)?))
}

/// A search for a name in a world and in those that it includes.
#[derive(Drop)]
struct Search {
    asked: Asked,
    /// The scopes on the way, and which of them are to be looked at, the next one last.
    steps: Vec<Step>,
    waiting: Vec<usize>,
    /// What is found if no scope has the name.
    missing: Found,
}

impl Search {
    fn new(alloc: Global, asked: Asked) -> Search {
        Search {
            asked,
            steps: Vec::new(alloc),
            waiting: Vec::new(alloc),
            missing: Found::Unknown,
        }
    }

    /// Puts a scope on the way.
    fn wait(&mut self, scope: ScopeId, from: Option<usize>) -> Result<(), AllocError> {
        self.waiting.push(self.steps.len())?;
        self.steps.push(Step { scope, from })?;
        Ok(())
    }

    /// The step at a place on the way.
    fn step(&self, at: Option<usize>) -> Option<Step> {
        self.steps.as_slice().get(at?).copied()
    }

    /// The next scope that is to be looked at, with its place on the way.
    fn take_next(&mut self) -> Option<(usize, ScopeId)> {
        let at = self.waiting.pop()?;
        let step = self.steps.get(at)?;
        Some((at, step.scope))
    }
}

impl Included {
    /// Puts the worlds on the way that a scope includes, the last one first, but for those whose item of this name has
    /// another one there.
    fn add_worlds(
        &self,
        scopes: &Scopes<'_>,
        search: &mut Search,
        at: usize,
        scope: ScopeId,
    ) -> Result<(), AllocError> {
        let mut next = self.lasts.as_slice().get(scope.0).copied().flatten();
        for _turn in 0..self.entries.len() {
            let Some(include) = next else {
                break;
            };
            let Some(entry) = self.entries.as_slice().get(include).copied() else {
                break;
            };
            next = entry.next;
            if scopes.is_renamed(include, search.asked.name) {
                continue;
            }
            match entry.world {
                Some(world) => search.wait(world, Some(at))?,
                None => search.missing = Found::Unreadable,
            }
        }
        Ok(())
    }

    /// What was found from this scope on, if anything was looked for there before.
    fn known(&self, asked: Asked, scope: ScopeId) -> Option<Found> {
        self.known.get(&Asked { scope, ..asked }).copied()
    }

    /// Notes what was found from the scopes on the way to this step.
    fn note(&mut self, search: &Search, last: usize, found: Found) -> Result<(), AllocError> {
        let mut at = Some(last);
        for _turn in 0..search.steps.len() {
            let Some(step) = search.step(at) else {
                break;
            };
            let asked = Asked {
                scope: step.scope,
                ..search.asked
            };
            self.known.insert(asked, found)?;
            at = step.from;
        }
        Ok(())
    }

    /// Looks at one scope. What is found there, if anything is.
    fn look(
        &mut self,
        scopes: &Scopes<'_>,
        search: &mut Search,
        at: usize,
        scope: ScopeId,
    ) -> Result<Option<Found>, AllocError> {
        if !self.is_first(scope) {
            return Ok(None);
        }
        self.left = self.left.saturating_sub(1);
        if let Some(found) = self.known(search.asked, scope) {
            return Ok(Some(found));
        }
        let here = Asked {
            scope,
            ..search.asked
        };
        if let Some(found) = found_here(scopes, here) {
            return Ok(Some(found));
        }
        if scopes.is_unread(scope, search.asked.name) {
            search.missing = Found::Unreadable;
        }
        self.add_worlds(scopes, search, at, scope)?;
        Ok(None)
    }

    /// What a name means in a world. After too many steps for all names of the set, it can't be told.
    pub(crate) fn find(
        &mut self,
        alloc: Global,
        scopes: &Scopes<'_>,
        asked: Asked,
    ) -> Result<Found, AllocError> {
        let mut search = Search::new(alloc, asked);
        search.wait(asked.scope, None)?;
        self.search = self.search.saturating_add(1);
        for _turn in 0..self.left {
            let Some((at, scope)) = search.take_next() else {
                self.note(&search, 0, search.missing)?;
                return Ok(search.missing);
            };
            if let Some(found) = self.look(scopes, &mut search, at, scope)? {
                self.note(&search, at, found)?;
                return Ok(found);
            }
        }
        Ok(Found::Unreadable)
    }
}
