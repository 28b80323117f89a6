//! What a call runs: a component's core functions.
ghost use Rattle.std.specs.Prelude.{◌≡◌, ℕ, List, option_map};
ghost use Rattle.std.specs.Result.{result_ok};
ghost use Rattle.canonical_abi.specs.Call.{Run, PostRun, AllowsSameRuns, AllowsSamePosts};

use canonical_abi::Flat;
use memory::{Guest, Space};
use values::FlatResults;

/// A core function's end without an answer.
#[derive(Clone, Copy, Debug, PartialEq, Eq)]
pub struct Stopped;

/// A component's core function and its post-return, over a memory of the kind `G`. It may do anything that
/// the runs which it declares allow.
pub trait Body<G: Guest> {
    // What it keeps, as a list of numbers.
    ghost state: { Self → List ℕ };

    // The runs that it may make.
    ghost runs: { Self → Run };

    // The runs that its post-return may make.
    ghost posts: { Self → PostRun };

    /// Runs the core function on these flat values.
    fn call(&mut self, memory: &mut G, arguments: &[Flat]) -> Result<FlatResults, Stopped>
        ensures run { runs self.old (state self.old) (G.memory memory.old) arguments.now
            (state self.new) (G.memory memory.new) (option_map (λ flats. flats.items) (result_ok result)) }
        ensures same_runs { AllowsSameRuns (runs self.old) (runs self.new) }
        ensures same_posts { AllowsSamePosts (posts self.old) (posts self.new) };

    /// Runs the post-return on what the core function answered.
    fn post_return(&mut self, memory: &mut G, answer: &[Flat]) -> Result<(), Stopped>
        ensures run { posts self.old (state self.old) (G.memory memory.old) answer.now
            (state self.new) (G.memory memory.new) (result_ok result) }
        ensures same_runs { AllowsSameRuns (runs self.old) (runs self.new) }
        ensures same_posts { AllowsSamePosts (posts self.old) (posts self.new) };
}

/// A body over a `Space`, which can be boxed: its calls are those of `Body<Space>`.
pub trait Export: Drop {
    ghost state: { Self → List ℕ };

    ghost runs: { Self → Run };

    ghost posts: { Self → PostRun };

    fn call(&mut self, memory: &mut Space, arguments: &[Flat]) -> Result<FlatResults, Stopped>
        ensures run { runs self.old (state self.old) (⟦<Space as Guest>⟧.memory memory.old) arguments.now
            (state self.new) (⟦<Space as Guest>⟧.memory memory.new)
            (option_map (λ flats. flats.items) (result_ok result)) }
        ensures same_runs { AllowsSameRuns (runs self.old) (runs self.new) }
        ensures same_posts { AllowsSamePosts (posts self.old) (posts self.new) };

    fn post_return(&mut self, memory: &mut Space, answer: &[Flat]) -> Result<(), Stopped>
        ensures run { posts self.old (state self.old) (⟦<Space as Guest>⟧.memory memory.old) answer.now
            (state self.new) (⟦<Space as Guest>⟧.memory memory.new) (result_ok result) }
        ensures same_runs { AllowsSameRuns (runs self.old) (runs self.new) }
        ensures same_posts { AllowsSamePosts (posts self.old) (posts self.new) };
}

/// A body that was chosen when the program runs.
#[derive(Drop)]
pub struct BoxedBody {
    export: Box<dyn Export>,
}

impl BoxedBody {
    /// The body that the box holds, with its state and its runs.
    pub fn new(export: Box<dyn Export>) -> BoxedBody
        ensures { result.export ≡ export }
    {
        BoxedBody { export }
    }
}

impl Body<Space> for BoxedBody {
    ghost state = { λ b. (Export-box b.export).state b.export.value };

    ghost runs = { λ b. (Export-box b.export).runs b.export.value };

    ghost posts = { λ b. (Export-box b.export).posts b.export.value };

    fn call(&mut self, memory: &mut Space, arguments: &[Flat]) -> Result<FlatResults, Stopped> {
        self.export.call(memory, arguments)
    }

    fn post_return(&mut self, memory: &mut Space, answer: &[Flat]) -> Result<(), Stopped> {
        self.export.post_return(memory, answer)
    }
}
