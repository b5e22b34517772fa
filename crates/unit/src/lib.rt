// The dialogue unit: setup, one event, and the user data of an event. Rules: 01, "The five states".
#![tactic(auto)]

ghost use Rattle.std.specs.Prelude.{◌≡◌, length};
ghost use Rattle.book.specs.Step.{step, Turned, set_up};
ghost use Rattle.unit.specs.UserData.{user_data_of};

use book::{Turn, Unit};
use state::events;

// One event: the unit after it, and its lines in the lent buffer.
pub fn handle(mut unit: Unit, event: &[u8], out: &mut [u8]) -> Turn
    ensures { Turned unit (step (length out.old) unit event.now) out.old result out.new }
{
    let verdict = turn::handle(&mut unit, event, out);
    Turn { unit, verdict }
}

// A new unit: its limits in ticks, and its name. Refusal 7, and a unit with every number 0, where they are out of range.
pub fn setup(start: u16, end: u16, inactivity: u16, name: &[u8]) -> Turn
    ensures { result ≡ set_up start end inactivity name.now }
{
    let mut unit = turn::value::BLANK;
    let verdict = turn::setup(&mut unit, start, end, inactivity, name);
    Turn { unit, verdict }
}

// The user data of the frame that an event carries, as the very octets of the event; nothing where there are none.
#[tactic(auto, unfolding(crate::specs::UserData::user_data_of))]
pub fn user_data(event: &[u8]) -> &[u8]
    ensures { result.now ≡ user_data_of event.now }
{
    let frame = said::after(event, events::frame_from(events::event_of(event)));
    match frame::read(frame) {
        Ok(whole) => frame::user_data(frame, whole.header),
        Err(_) => &[],
    }
}
