//! Laws of the memories.
ghost use Rattle.std.specs.Prelude.{ℕ, ◌↔◌, ◌≤◌, length};
ghost use Rattle.canonical_abi.specs.Guest.{IsLimited, KeepsLimit};
ghost use Rattle.canonical_abi.specs.TameValues.{IgnoresLive};
ghost use Rattle.canonical_abi.specs.Told.{AllocatesInOneWay, IgnoresBytes};
ghost use Rattle.memory.specs.Alike.{AnswersAlike, ReleasesAlike};
ghost use Rattle.memory.specs.Bump.{BumpAllocates, BumpReleases};
ghost use Rattle.memory.specs.FirstFit.{FirstFitAllocates, FirstFitReleases, IsHole};
ghost use Rattle.memory.specs.Growth.{most_bytes};
ghost use Rattle.memory.specs.Headers.{HeadersAllocates};
ghost use Rattle.memory.specs.Holes.{IsListed};
ghost use Rattle.memory.specs.HolesView.{listed_holes};
ghost use Rattle.memory.specs.Lent.{LentAllocates};
ghost use Rattle.memory.specs.Space.{kind_and_most_bytes, SpaceAllocates, SpaceReleases};

use crate::bump::Bump;
use crate::first_fit::FirstFit;
use crate::headers::Headers;
use crate::lent::Lent;
use crate::space::Space;
use canonical_abi::Guest;

/// Two `Bump`s of equal length and equal most bytes with the same live addresses give equal answers from then on.
pub fn bumps_answer_alike()
    ensures { AnswersAlike most_bytes BumpAllocates }
{}

/// So do two `FirstFit`s.
pub fn first_fits_answer_alike()
    ensures { AnswersAlike most_bytes FirstFitAllocates }
{}

/// So do two `Space`s of one kind.
pub fn spaces_answer_alike()
    ensures { AnswersAlike kind_and_most_bytes SpaceAllocates }
{}

/// Given back the same, two `Bump`s that are alike answer alike, and are alike again.
pub fn bumps_release_alike()
    ensures { ReleasesAlike most_bytes BumpReleases }
{}

/// So do two `FirstFit`s.
pub fn first_fits_release_alike()
    ensures { ReleasesAlike most_bytes FirstFitReleases }
{}

/// So do two `Space`s of one kind.
pub fn spaces_release_alike()
    ensures { ReleasesAlike kind_and_most_bytes SpaceReleases }
{}

/// The holes that a `FirstFit` keeps are just the longest runs of what is usable and not live.
pub fn holes_are_longest_runs(_memory: &FirstFit)
    ensures { (start end : ℕ) → IsListed (listed_holes _memory.now.holes) start end
        ↔ IsHole (⟦<FirstFit as Guest>⟧.memory _memory.now) start end }
{}

/// No `Bump` is longer than 16,777,216 bytes, and so none is past the limit of the promise.
pub fn bumps_are_limited(_memory: &Bump)
    ensures most { length (⟦<Bump as Guest>⟧.memory _memory.now).bytes ≤ 16777216 }
    ensures limited { IsLimited (⟦<Bump as Guest>⟧.memory _memory.now) }
{}

/// Nor is a `FirstFit`.
pub fn first_fits_are_limited(_memory: &FirstFit)
    ensures most { length (⟦<FirstFit as Guest>⟧.memory _memory.now).bytes ≤ 16777216 }
    ensures limited { IsLimited (⟦<FirstFit as Guest>⟧.memory _memory.now) }
{}

/// Nor is a `Space`.
pub fn spaces_are_limited(_memory: &Space)
    ensures most { length (⟦<Space as Guest>⟧.memory _memory.now).bytes ≤ 16777216 }
    ensures limited { IsLimited (⟦<Space as Guest>⟧.memory _memory.now) }
{}

/// Nor is a `Headers`.
pub fn headers_are_limited(_memory: &Headers)
    ensures most { length (⟦<Headers as Guest>⟧.memory _memory.now).bytes ≤ 16777216 }
    ensures limited { IsLimited (⟦<Headers as Guest>⟧.memory _memory.now) }
{}

/// Nor is a `Lent` past it.
pub fn lents_are_limited<'a>(_memory: &Lent<'a>)
    ensures { IsLimited (⟦<Lent<'a> as Guest>⟧.memory _memory.now) }
{}

/// No step of a `Bump`'s allocator takes its memory past the limit.
pub fn bumps_keep_the_limit()
    ensures { KeepsLimit BumpAllocates }
{}

/// Nor does one of a `FirstFit`'s.
pub fn first_fits_keep_the_limit()
    ensures { KeepsLimit FirstFitAllocates }
{}

/// Nor does one of a `Space`'s.
pub fn spaces_keep_the_limit()
    ensures { KeepsLimit SpaceAllocates }
{}

/// Nor does one of a `Headers`'s.
pub fn headers_keep_the_limit()
    ensures { KeepsLimit HeadersAllocates }
{}

/// Nor does one of a `Lent`'s.
pub fn lents_keep_the_limit()
    ensures { KeepsLimit LentAllocates }
{}

/// One memory and one request have one answer of a `Bump`, whatever its bytes are.
pub fn bumps_answer_in_one_way()
    ensures one_way { AllocatesInOneWay BumpAllocates }
    ensures ignores { IgnoresBytes BumpAllocates }
{}

/// So they have of a `FirstFit`.
pub fn first_fits_answer_in_one_way()
    ensures one_way { AllocatesInOneWay FirstFitAllocates }
    ensures ignores { IgnoresBytes FirstFitAllocates }
{}

/// So they have of a `Headers`, whatever its bytes are that are live.
pub fn headers_answer_in_one_way()
    ensures one_way { AllocatesInOneWay HeadersAllocates }
    ensures ignores { IgnoresLive HeadersAllocates }
{}

/// So they have of a `Lent`.
pub fn lents_answer_in_one_way()
    ensures one_way { AllocatesInOneWay LentAllocates }
    ensures ignores { IgnoresBytes LentAllocates }
{}

/// So they have of a `Space`.
pub fn spaces_answer_in_one_way()
    ensures one_way { AllocatesInOneWay SpaceAllocates }
    ensures ignores { IgnoresBytes SpaceAllocates }
{}
