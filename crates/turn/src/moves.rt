// What an event asks of a unit, and the move that needs no form of its own.
ghost use Rattle.std.specs.Prelude.{◌≡◌};
ghost use Rattle.book.specs.Turns.{takes};
ghost use Rattle.turn_laws.specs.Moves.{rested};
ghost use Rattle.turn.specs.Columns.{number_of};

use crate::column::Column;
use crate::held::Held;
use image::seen::Seen;
use state::turns;

// A message was heard: in Associated the ticks begin anew.
pub(crate) fn rest<H: Held>(u: &mut H)
    ensures { H.unit u.new ≡ rested (H.unit u.old) }
{
    if u.state() == 4 {
        u.at_elapsed(4, 0);
    }
}

// Whether the state that a unit is in takes an event, by the event's column in the turn table.
pub(crate) fn takes<H: Seen>(u: &H, column: Column) -> bool
    ensures { result ≡ takes (H.unit u.now).state (number_of column) }
{
    turns::taken(usize::from(u.state()), column as usize)
}
