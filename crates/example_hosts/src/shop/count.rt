//! The code behind `count: func(titles: list<string>, more: u32) -> u32`.

use witcall::{Body, Flat, FlatResults, Guest, Stopped};

/// A body that answers the number of titles and `more` together, and stops if that is no `u32`.
#[derive(Drop)]
pub struct Count;

impl<G: Guest> Body<G> for Count {
    ghost use Rattle.std.specs.Prelude.{◌≡◌, [], Some};

    // It keeps nothing between calls.
    ghost state = { λ _. [] };

    // A run may do anything with the memory, and answer anything.
    ghost runs = { λ _ s _ _ s' _ _. s' ≡ s };

    // Its post-return changes nothing.
    ghost posts = { λ _ s m _ s' m' done. (s' ≡ s) × (m' ≡ m) × (done ≡ Some tt) };

    fn call(&mut self, _memory: &mut G, arguments: &[Flat]) -> Result<FlatResults, Stopped> {
        // A list is given as its address and its length.
        let [Flat::I32(_at), Flat::I32(titles), Flat::I32(more)] = arguments else {
            return Err(Stopped);
        };
        let Some(count) = titles.checked_add(*more) else {
            return Err(Stopped);
        };
        let mut answer = FlatResults::new();
        answer.push(Flat::I32(count));
        Ok(answer)
    }

    fn post_return(&mut self, _memory: &mut G, _answer: &[Flat]) -> Result<(), Stopped> {
        Ok(())
    }
}
