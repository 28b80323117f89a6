//! Packages checked in the order in which their packages depend on each other.
ghost use Rattle.std.specs.Prelude.{◌≡◌, ◌+◌, ◌<◌, ◌≤◌, All, IfOk, OnOk, length};
ghost use Rattle.layout.specs.Layout.{AreWithin, layouts_of};
ghost use Rattle.package_form.specs.Form.{IsInPackageForm};
ghost use Rattle.package_form.specs.Naming.{package_scopes};
ghost use Rattle.package_form.specs.Scope.{AreDistinct};
ghost use Rattle.package_text.specs.Writable.{IsWritable};

use crate::graph::graph_of;
use crate::names::NameFaults;
use crate::package_order::{Arrangement, arranged};
use layout::Layouts;
use layout_limits::first_above_limits;
use package_adding::PackageSet;
use std::alloc::{AllocError, Global};
use tables::{Resolve, Sequence};
use text_builder::TextBuilder;
use wit_binaries::with_texts;
use wit_comments::Comments;
use wit_faults::{Cause, Known, PackageRef, Report, first_path};
use wit_files::{MAX_FAULTS, Member, RemainingItems, Source, members_of};
use wit_text::Ast;

/// A package without a fault: its own tables, which begin with what it uses of others.
#[derive(Drop)]
pub struct Checked {
    pub is_dependency: bool,
    pub tables: Resolve,
    pub layouts: Layouts,
    pub ghost laid_out: { layouts ≡ layouts_of tables },
    pub ghost within: { ∥ AreWithin tables ∥₁ },
    pub ghost writable: { ∥ IsWritable tables ∥₁ },
}

/// Packages without a fault, each after those that it depends on.
#[derive(Drop)]
pub struct CheckedSet {
    /// All of them, as one table.
    pub set: PackageSet,
    pub list: Vec<Checked>,
    /// The comments of their texts.
    pub comments: Comments,
}

impl CheckedSet {
    /// No package.
    pub fn none(alloc: Global) -> CheckedSet {
        CheckedSet {
            set: PackageSet::new(alloc),
            list: Vec::new(alloc),
            comments: Comments::new(alloc),
        }
    }
}

/// A package that can be written is in form, and its names differ in each scope.
pub fn is_in_form(_tables: &Resolve)
    requires { ∥ IsWritable _tables.now ∥₁ }
    ensures form { ∥ IsInPackageForm _tables.now ∥₁ }
    ensures distinct { ∥ All AreDistinct (package_scopes _tables.now) ∥₁ }
{}

/// The place of the last package that is no dependency.
pub fn main_of(packages: &[Checked]) -> usize {
    let mut main = 0;
    for (place, package) in packages.iter().enumerate() {
        if !package.is_dependency {
            main = place;
        }
    }
    main
}

/// The packages so far.
#[derive(Drop)]
struct Checker<'a> {
    alloc: Global,
    /// The package of each member.
    known: Vec<Known<'a>>,
    /// Which members have no fault.
    is_good: Vec<bool>,
    /// The packages of these, and what was found of each.
    set: PackageSet,
    checked: Vec<Checked>,
    comments: Comments,
}

/// Adds the comments of a package's files.
fn add_comments(comments: &mut Comments, member: &Member<'_>) -> Result<(), AllocError> {
    for lexed in member.files.as_slice() {
        comments.add(member.package(), lexed)?;
    }
    Ok(())
}

/// Adds the package of a tree to a set.
fn added(
    alloc: Global,
    set: &mut PackageSet,
    tree: &Ast,
    is_dependency: bool,
) -> Result<Checked, Cause> {
    let id = set.add_ast(alloc, tree)?;
    let tables = set.table(alloc, id)?;
    match Layouts::of(alloc, &tables) {
        Ok(layouts) => Ok(Checked {
            is_dependency,
            tables,
            layouts,
        }),
        Err(error) => Err(Cause::Layout(error, first_above_limits(alloc, &tables)?)),
    }
}

impl<'a> Checker<'a> {
    fn new(alloc: Global, members: &'a [Member<'_>]) -> Result<Checker<'a>, AllocError>
        ensures { IfOk result (λ c. length c.checked.items ≡ 0) }
    {
        let known = members.iter().map(|member| Known {
            package: member.package(),
            files: member.files.as_slice(),
        });
        Ok(Checker {
            alloc,
            known: known.collect(alloc)?,
            is_good: vec![in alloc; false; members.len()]?,
            set: PackageSet::new(alloc),
            checked: Vec::new(alloc),
            comments: Comments::new(alloc),
        })
    }

    /// The package of the first of these members that has a fault.
    fn first_bad(&self, used: &[usize]) -> Option<PackageRef<'a>> {
        for place in used {
            if !self.is_good.get(*place).copied().unwrap_or(false) {
                return self.known.get(*place).map(|known| known.package);
            }
        }
        None
    }

    /// The fault of the names of these items, if there is one.
    fn fault_of(&mut self, items: &RemainingItems<'_>) -> Result<Option<Cause>, AllocError> {
        let Some(tree) = items.tree()? else {
            return Ok(None);
        };
        Ok(added(self.alloc, &mut self.set, &tree, false).err())
    }

    /// Finds the faults of a package's names, of which the first is known.
    fn find_each(&mut self, faults: &mut NameFaults<'_>, first: Cause) -> Result<(), AllocError> {
        let mut cause = first;
        for _ in 0..MAX_FAULTS {
            if !faults.add(self.known.as_slice(), &cause)? {
                break;
            }
            match self.fault_of(&faults.rest)? {
                Some(next) => cause = next,
                None => break,
            }
        }
        Ok(())
    }

    /// Reports the faults of a member's names, of which the first that was found is known, in the order of their
    /// places.
    fn report_each(
        &mut self,
        report: &mut Report,
        member: &Member<'_>,
        first: Cause,
    ) -> Result<(), AllocError>
        ensures { OnOk result (report.new.status ≡ 1) }
    {
        let mut faults = NameFaults::of(self.alloc, member)?;
        self.find_each(&mut faults, first)?;
        faults.report(report)
    }

    /// Keeps what was found of the member at a place, which has no fault.
    fn keep(
        &mut self,
        place: usize,
        member: &Member<'_>,
        checked: Checked,
    ) -> Result<(), AllocError>
        ensures { OnOk result (length self.new.checked.items ≡ length self.old.checked.items + 1) }
    {
        self.checked.push(checked)?;
        add_comments(&mut self.comments, member)?;
        if let Some(mark) = self.is_good.get_mut(place) {
            *mark = true;
        }
        Ok(())
    }

    /// Checks a member, which uses these. If one of them has a fault, it is left out.
    fn check(
        &mut self,
        report: &mut Report,
        place: usize,
        member: &Member<'_>,
        used: &[usize],
    ) -> Result<(), AllocError>
        ensures { OnOk result (report.new.status ≡ 0 → (report.old.status ≡ 0)
            × (length self.new.checked.items ≡ length self.old.checked.items + 1)) }
    {
        if let Some(package) = self.first_bad(used) {
            report.leave_out(self.alloc, member.files.as_slice(), package);
            return Ok(());
        }
        if member.has_fault {
            report.status = 1;
            return Ok(());
        }
        match added(
            self.alloc,
            &mut self.set,
            &member.tree,
            member.is_dependency,
        ) {
            Ok(checked) => self.keep(place, member, checked),
            Err(cause) => self.report_each(report, member, cause),
        }
    }
}

/// Checks members in an order.
fn check_each<'a>(
    alloc: Global,
    report: &mut Report,
    members: &'a [Member<'_>],
    graph: &[Sequence<usize>],
    order: &[usize],
) -> Result<CheckedSet, AllocError>
    requires graph { length graph.now ≡ length members.now }
    requires order { All (λ place. place < length members.now) order.now }
    ensures { IfOk result (λ found. report.new.status ≡ 0 → length found.list.items ≡ length order.now) }
{
    let mut checker = Checker::new(alloc, members)?;
    for place in order {
        let used = graph[*place].as_slice();
        checker.check(report, *place, &members[*place], used)?;
    }
    Ok(CheckedSet {
        set: checker.set,
        list: checker.checked,
        comments: checker.comments,
    })
}

/// The packages of a ring, from the first to the first again.
fn ring_words(alloc: Global, members: &[Member<'_>], ring: &[usize]) -> Result<String, AllocError>
    requires { All (λ place. place < length members.now) ring.now }
{
    let mut words = TextBuilder::new(alloc);
    words.push("packages depend on each other: ");
    for place in ring {
        words.push_made(members[*place].package().to_string(alloc));
        words.push(" -> ");
    }
    if let Some(place) = ring.first() {
        words.push_made(members[*place].package().to_string(alloc));
    }
    words.finish()
}

/// Reports packages that depend on each other, at the path in the first that names the second.
fn report_ring(alloc: Global, report: &mut Report, members: &[Member<'_>], ring: &[usize])
    requires some { 0 < length ring.now }
    requires within { All (λ place. place < length members.now) ring.now }
    ensures { report.new.status ≡ 1 }
{
    let words = report.text.kept(ring_words(alloc, members, ring));
    let files = members[ring[0]].files.as_slice();
    let second = members[ring[1 % ring.len()]].package();
    let hint = "move what both use into a package of its own";
    report.add_found(alloc, first_path(files, second), words.as_str(), hint);
}

/// Checks these members, each after those that it depends on, and reports each fault. Packages that depend on each
/// other are reported, and then nothing else is checked. No fault is dropped: if the status is 0, each member's package
/// was checked.
pub fn check_members<'a>(
    alloc: Global,
    report: &mut Report,
    members: &'a [Member<'_>],
) -> Result<CheckedSet, AllocError>
    ensures { IfOk result (λ found. report.new.status ≡ 0 → length members.now ≤ length found.list.items) }
{
    let graph = graph_of(alloc, members)?;
    match arranged(alloc, graph.as_slice())? {
        Arrangement::Order(order) => {
            check_each(alloc, report, members, graph.as_slice(), order.as_slice())
        }
        Arrangement::Cycle(ring) => {
            report_ring(alloc, report, members, ring.as_slice());
            Ok(CheckedSet::none(alloc))
        }
    }
}

/// Checks the packages of these files, which are texts and binaries. The names of a package are checked if its texts
/// and the packages that it depends on have no fault, and if the package of each file is known.
pub fn check_sources(
    alloc: Global,
    report: &mut Report,
    sources: Vec<Source>,
) -> Result<CheckedSet, AllocError> {
    let texts = with_texts(alloc, report, sources)?;
    let are_read = report.status == 0;
    let members = members_of(alloc, report, texts.as_slice())?;
    if !are_read || !members.are_all {
        return Ok(CheckedSet::none(alloc));
    }
    check_members(alloc, report, members.list.as_slice())
}
