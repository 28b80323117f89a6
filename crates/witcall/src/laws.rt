//! Laws of packages that were opened, and of their sessions.

ghost use Rattle.canonical_abi.specs.Call.{exact};
ghost use Rattle.canonical_abi.specs.Causes.{TrapsHaveCauses};
ghost use Rattle.canonical_abi.specs.Few.{VisitsFewNodes};
ghost use Rattle.canonical_abi.specs.Halves.{HalvesAreACall};
ghost use Rattle.canonical_abi.specs.Keeping.{CalleeKeepsHeld};
ghost use Rattle.canonical_abi.specs.OnlyValues.{OnlyValuesCross, TrapsShowValues};
ghost use Rattle.memory.specs.Space.{SpaceAllocates, SpaceReleases, spaces};
ghost use Rattle.tables.specs.Package.{IsClosedByNames};
ghost use Rattle.package_form.specs.Laws.{HasOneOfEachName};
ghost use Rattle.value_json.specs.ByNames.{IsLabelledByNames};
ghost use Rattle.witcall.specs.Laws.{PlacesHeld, PlacesHeldLive, StepsKeepHeld, StepsReadHeld, StepsReadPlaced};
ghost use Rattle.witcall.specs.Laws.{StepsTellCallee};

use crate::reply::Reply;
use crate::session::Session;
use adapter::{Body, Export};
use canonical_abi::Guest;
use opening::Package;
use package_text::names_are_labels;
pub use package_values::laws::has_labels_apart;
use tables::laws::closes_alike;
use value_json::labels_alike;

/// A function of a package, or of one before it, that is found by its names is the only one of these names.
pub fn has_one_function_of_each_name(package: &Package)
    ensures { ∥ HasOneOfEachName «package».now.resolve ∥₁ }
{
    names_are_labels(package.resolve());
}

/// The closed types of a package are what its names alone unfold to.
pub fn is_closed_by_names(package: &Package)
    ensures { ∥ IsClosedByNames «package».now.resolve ∥₁ }
{
    names_are_labels(package.resolve());
    closes_alike(package.resolve());
}

/// The labelled types of a package, by which values are JSON, are what its names alone determine.
pub fn is_labelled_by_names(package: &Package)
    ensures { ∥ IsLabelledByNames «package».now.resolve ∥₁ }
{
    names_are_labels(package.resolve());
    labels_alike(package.resolve());
}

/// What is placed in an honest memory is held in live blocks of its own, and nothing else is changed; in a tame one it is
/// held in live addresses that were not live, and no live byte is changed. Between tame memories, so between honest ones,
/// too, through every list of steps of a session, traps among them, a value that a component holds at some moment is held
/// with the same footprint, and is read as that value, or the host is out of memory: in the caller while its footprint is
/// live, so that what was placed is read until a release frees it; in the callee if no run of the body or of its
/// post-return changed a byte of the footprint or freed it.
pub fn keeps_held<C: Guest, E: Guest, B: Body<E>>(_session: &Session<'_, C, E, B>)
    ensures caller { StepsKeepHeld
        (record {
          caller_allocates = C.allocates;
          callee_allocates = E.allocates;
          runs = B.runs _session.now.body;
          posts = B.posts _session.now.body;
        })
        C.releases
        E.releases
        _session.now.package.now.resolve }
    ensures held { StepsReadHeld
        (record {
          caller_allocates = C.allocates;
          callee_allocates = E.allocates;
          runs = B.runs _session.now.body;
          posts = B.posts _session.now.body;
        })
        C.releases
        E.releases
        _session.now.package.now.resolve }
    ensures placed { PlacesHeld
        (record {
          caller_allocates = C.allocates;
          callee_allocates = E.allocates;
          runs = B.runs _session.now.body;
          posts = B.posts _session.now.body;
        })
        C.releases
        E.releases
        _session.now.package.now.resolve }
    ensures placed_live { PlacesHeldLive
        (record {
          caller_allocates = C.allocates;
          callee_allocates = E.allocates;
          runs = B.runs _session.now.body;
          posts = B.posts _session.now.body;
        })
        C.releases
        E.releases
        _session.now.package.now.resolve }
    ensures read { StepsReadPlaced
        (record {
          caller_allocates = C.allocates;
          callee_allocates = E.allocates;
          runs = B.runs _session.now.body;
          posts = B.posts _session.now.body;
        })
        C.releases
        E.releases
        _session.now.package.now.resolve }
    ensures callee { CalleeKeepsHeld
        (record {
          caller_allocates = C.allocates;
          callee_allocates = E.allocates;
          runs = B.runs _session.now.body;
          posts = B.posts _session.now.body;
        })
        C.releases
        exact
        E.releases }
{}

/// Between tame memories, after any list of steps, traps among them, the callee and its body depend on their beginning,
/// on the functions and the arguments in turn, and on which calls the caller was out of memory for, in `place` or
/// `lower-result`: nothing else of a caller is in them, of whatever kind its memory is.
pub fn tells_callee<C: Guest, D: Guest, E: Guest, B: Body<E>>(_session: &Session<'_, C, E, B>)
    ensures { StepsTellCallee
        (record {
          caller_allocates = C.allocates;
          callee_allocates = E.allocates;
          runs = B.runs _session.now.body;
          posts = B.posts _session.now.body;
        })
        D.allocates
        C.releases
        D.releases
        E.releases
        _session.now.package.now.resolve }
{}

/// The laws of a call of `canonical_abi` for the body of a session: only values cross, a trap shows only values, each
/// trap has the cause of its step, a call visits few nodes, and two halves are a call.
pub fn calls_keep_laws<C: Guest, D: Guest, E: Guest, B: Body<E>>(_body: &B)
    ensures only_values { OnlyValuesCross E.allocates C.allocates D.allocates (B.runs _body.now) (B.posts _body.now) }
    ensures shown { TrapsShowValues
        (record {
          caller_allocates = C.allocates;
          callee_allocates = E.allocates;
          runs = B.runs _body.now;
          posts = B.posts _body.now;
        })
        C.releases E.releases }
    ensures causes { TrapsHaveCauses
        (record {
          caller_allocates = C.allocates;
          callee_allocates = E.allocates;
          runs = B.runs _body.now;
          posts = B.posts _body.now;
        })
        exact }
    ensures few { VisitsFewNodes
        (record {
          caller_allocates = C.allocates;
          callee_allocates = E.allocates;
          runs = B.runs _body.now;
          posts = B.posts _body.now;
        }) }
    ensures halves { HalvesAreACall
        (record {
          caller_allocates = C.allocates;
          callee_allocates = E.allocates;
          runs = B.runs _body.now;
          posts = B.posts _body.now;
        }) }
{}

/// The same of the program's own calls: of a `Reply` over two memories of the kind `Space`.
pub fn replies_keep_laws(_reply: &Reply)
    ensures only_values { OnlyValuesCross SpaceAllocates SpaceAllocates SpaceAllocates
        (⟦<Reply as Export>⟧.runs _reply.now) (⟦<Reply as Export>⟧.posts _reply.now) }
    ensures shown { TrapsShowValues (spaces (⟦<Reply as Export>⟧.runs _reply.now)
        (⟦<Reply as Export>⟧.posts _reply.now)) SpaceReleases SpaceReleases }
    ensures causes { TrapsHaveCauses (spaces (⟦<Reply as Export>⟧.runs _reply.now)
        (⟦<Reply as Export>⟧.posts _reply.now)) exact }
    ensures few { VisitsFewNodes (spaces (⟦<Reply as Export>⟧.runs _reply.now) (⟦<Reply as Export>⟧.posts _reply.now)) }
    ensures halves { HalvesAreACall (spaces (⟦<Reply as Export>⟧.runs _reply.now)
        (⟦<Reply as Export>⟧.posts _reply.now)) }
{}
