// One turn of a unit that is changed where it is lent, whatever it is held as: by value, or as its image. Rules: 01, "The five states".
#![tactic(auto)]

ghost use Rattle.std.specs.Prelude.{length, drop};
ghost use Rattle.book.specs.Events.{event_of, frame_from};
ghost use Rattle.book.specs.Picture.{setup_of, state_of};
ghost use Rattle.book.specs.Ready.{Ready};
ghost use Rattle.book.specs.Step.{does, step, set_up};
ghost use Rattle.turn.specs.Acts.{Acted, SetTo};

use book::{Done, Event, Refusal, Verdict};
use held::Held;
use state::{events, sound};

mod column;
mod data;
mod ends;
mod held;
mod in_place;
mod lines;
mod message;
mod moves;
mod requests;
mod starts;
mod stores;
pub mod value;

// The octets of the lent buffer that an event's lines may take.
const ROOM: usize = 1024;

// An event that a sound unit gets.
fn act<H: Held>(u: &mut H, event: &[u8], out: &mut [u8; ROOM]) -> Verdict
    requires ready { Ready (H.unit u.old) }
    ensures { Acted (H.unit u.old) (does (setup_of (H.unit u.old)) (event_of event.now) (drop (frame_from (event_of event.now)) event.now) (state_of (H.unit u.old))) out.old result (H.unit u.new) out.new }
{
    match events::event_of(event) {
        Event::Malformed => Err(Refusal::NoEvent),
        Event::Transfer(confirmed, terms) => {
            requests::on_request(u, confirmed, terms, said::after(event, 4), out)
        }
        Event::End => ends::on_end(u, out),
        Event::Tick => ends::on_tick(u, out),
        Event::StartAsked(terms) => starts::on_start(u, terms, said::after(event, 4), out),
        Event::StartAnswered(accepted) => starts::on_reply(u, accepted, said::after(event, 2), out),
        Event::Data => data::on_data(u, said::after(event, 1), out),
        Event::EndAsked => ends::on_end_asked(u, out),
        Event::EndAnswered(accepted) => ends::on_end_answered(u, out, accepted),
        Event::Aborted => ends::on_abort(u, out, 0),
        Event::Dropped => ends::on_abort(u, out, 1),
    }
}

// One event: the lent unit becomes the one after it, and its lines stand in the lent buffer.
pub fn handle<H: Held>(u: &mut H, event: &[u8], out: &mut [u8]) -> Verdict
    ensures { Acted (H.unit u.old) (step (length out.old) (H.unit u.old) event.now) out.old result (H.unit u.new) out.new }
{
    let Some(lines) = out.first_chunk_mut::<ROOM>() else {
        return Err(Refusal::NoRoom);
    };
    if !u.is_sound() {
        return Err(Refusal::Unsound);
    }
    act(u, event, lines)
}

// The lent unit becomes a new one: its limits in ticks, and its name. Refusal 7, and a unit with every number 0, where they are out of range.
pub fn setup<H: Held>(u: &mut H, start: u16, end: u16, inactivity: u16, name: &[u8]) -> Verdict
    ensures { SetTo (H.unit u.new) result (set_up start end inactivity name.now) }
{
    if !sound::within_limits(start, end, inactivity, name.len()) {
        u.make(0, 0, 0, [0; 32], 0);
        return Err(Refusal::BadSetup);
    }
    u.make(start, end, inactivity, said::name_of(name), name.len());
    Ok(Done {
        lines: 0,
        octets: 0,
    })
}
