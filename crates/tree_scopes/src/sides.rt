//! The sides of a world.
ghost use Rattle.std.specs.Prelude.{◌≡◌};
ghost use Rattle.tree_meaning.specs.Resolved.{direction_meaning};

use tables::Direction;

/// On which side of its world an item stands.
pub fn side_of(direction: wit_tokens::wit_syntax::Direction) -> Direction
    ensures { result ≡ direction_meaning direction }
{
    match direction {
        wit_tokens::wit_syntax::Direction::Import => Direction::Import,
        wit_tokens::wit_syntax::Direction::Export => Direction::Export,
    }
}
