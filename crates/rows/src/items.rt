// What stands between the items of a list.
ghost use Rattle.std.specs.Prelude.{◌≡◌};
ghost use Rattle.model.specs.Step.{gap};

use memory::Piece;

/// What stands before an item: one space, if an item was written before it.
pub fn gap(written: bool) -> Option<[u8; 1]>
    ensures value { ⟦<Option<[u8; 1]> as Piece>⟧.bytes result ≡ gap written }
{
    written.then_some(*b" ")
}
