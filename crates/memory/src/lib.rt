//! Linear memories, each with its allocator: what stands behind a component.
//!
//! A memory is a `Guest`: it tells its bytes, its live addresses and the steps that its allocator may
//! make. `Bump`, `FirstFit`, which takes blocks back, and `Space` are `Honest` as well: they never grant
//! what is live. One that was made by `growing` grows by whole pages where a block doesn't fit. `Headers` keeps its
//! notes in the memory itself, so it is `Tame` and not honest. `Scripted` answers from a list and is neither. `Lent` is
//! a host's own memory, where it is, with the blocks that the host's allocator has granted before a call. `write_over`
//! is what writes into all of them but `Scripted`, also for a `Guest` that is made elsewhere. Stands on
//! `canonical_abi`, whose `Guest` is the promise that the layers above use, and on `max_tree`, in which `FirstFit`
//! finds its holes.
#![tactic(auto)]

mod block;
mod bump;
mod copies;
mod error;
mod first_fit;
mod headers;
mod holes;
mod laws;
mod lent;
mod pages;
mod scripted;
mod space;
mod units;

pub use block::{Block, can_lend};
pub use bump::Bump;
pub use canonical_abi::{Full, Guest, Honest, NotTaken, Tame};
pub use copies::write_over;
pub use error::{MAX_LEN, MemoryError, PAGE};
pub use first_fit::FirstFit;
pub use headers::Headers;
pub use laws::{
    bumps_answer_alike, bumps_answer_in_one_way, bumps_are_limited, bumps_keep_the_limit,
    bumps_release_alike, first_fits_answer_alike, first_fits_answer_in_one_way,
    first_fits_are_limited, first_fits_keep_the_limit, first_fits_release_alike,
    headers_answer_in_one_way, headers_are_limited, headers_keep_the_limit, holes_are_longest_runs,
    lents_answer_in_one_way, lents_are_limited, lents_keep_the_limit, spaces_answer_alike,
    spaces_answer_in_one_way, spaces_are_limited, spaces_keep_the_limit, spaces_release_alike,
};
pub use lent::Lent;
pub use scripted::Scripted;
pub use space::Space;
