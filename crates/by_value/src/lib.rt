// The unit by value over an image of 618 octets: taken out of it, turned by value, and put back. It stands beside the engine that changes the image in
// place, to be compared with it.
#![tactic(auto)]

ghost use Rattle.std.specs.Prelude.{◌≡◌};
ghost use Rattle.image.specs.Answer.{Handled};
ghost use Rattle.by_value.specs.Numbered.{refusal_in, Numbered};

use book::{Refusal, Verdict};

mod held;

// One event: the image of the unit after it, and its lines in the lent buffer.
pub fn handle(image: &mut [u8], event: &[u8], out: &mut [u8]) -> Verdict
    ensures { Handled image.old event.now out.old result image.new out.new }
{
    if out.len() < 1024 {
        return Err(Refusal::NoRoom);
    }
    let Some(image) = image.as_mut_array::<618>() else {
        return Err(Refusal::Unsound);
    };
    let turn = unit::handle(held::unit_in(image), event, out);
    if turn.verdict.is_ok() {
        held::put_unit(image, &turn.unit);
    }
    turn.verdict
}

// A refusal's number; 0 for an event that was taken.
#[tactic(auto, unfolding(crate::specs::Numbered::refusal_in))]
fn refusal_in(v: Verdict) -> u8
    ensures { result ≡ refusal_in v }
{
    match v {
        Ok(_) => 0,
        Err(refusal) => u8::from(refusal),
    }
}

// One event, for a program in C or Rust: 0, or the number of the refusal. The octets that the lines take are in the buffer; how many they are isn't said.
#[unsafe(no_mangle)]
pub extern "C" fn stelquorum_by_value(image: &mut [u8], event: &[u8], out: &mut [u8]) -> u8
    ensures { Numbered image.old event.now out.old result image.new out.new }
{
    refusal_in(handle(image, event, out))
}
