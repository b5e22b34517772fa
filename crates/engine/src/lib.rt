// The dialogue unit in place: one event changes the 618 octets that the caller lends. The same promise as crate unit's, through `unit_of`.
#![tactic(auto)]

ghost use Rattle.image.specs.Answer.{Handled, SetsUp};

use book::{Refusal, Verdict};

// One event: the lent image becomes that of the unit after it, and its lines stand in the lent buffer.
pub fn handle(image: &mut [u8], event: &[u8], out: &mut [u8]) -> Verdict
    ensures { Handled image.old event.now out.old result image.new out.new }
{
    if out.len() < 1024 {
        return Err(Refusal::NoRoom);
    }
    let Some(image) = image.as_mut_array::<618>() else {
        return Err(Refusal::Unsound);
    };
    turn::handle(image, event, out)
}

// A new unit in the lent image: its limits in ticks, and its name. Refusal 7, and a unit with every number 0, where they are out of range.
pub fn setup(image: &mut [u8], start: u16, end: u16, inactivity: u16, name: &[u8]) -> Verdict
    ensures { SetsUp start end inactivity name.now image.old result image.new }
{
    let Some(image) = image.as_mut_array::<618>() else {
        return Err(Refusal::Unsound);
    };
    turn::setup(image, start, end, inactivity, name)
}
