// What a line of the input leaves and prints: the first line, each later one, and a line that is none.
ghost use Rattle.std.specs.Prelude.{◌≤◌, ◌+◌, [], length};
ghost use Rattle.octets.specs.Put.{Put};
ghost use Rattle.text.specs.Reading.{held_in};
ghost use Rattle.book.specs.Step.{step};
ghost use Rattle.image.specs.Image.{unit_of};
ghost use Rattle.session.specs.Listing.{setup_in, begun, answer_to, listed};
ghost use Rattle.session.specs.Feeding.{most, last_line};
ghost use Rattle.session.specs.Walking.{Begins, Lays, Says, stated, verdict_lines, verdict_size};

use crate::{Phase, walk};
use book::{Refusal, Verdict};
use image::seen::Seen;

// The phase after a line, and the place after what it printed.
#[derive(Clone, Copy)]
pub(crate) struct Said {
    pub phase: Phase,
    pub end: usize,
}

// The setup that an event is. Any other is refused as one without a name, which leaves a unit with every number 0.
fn set_up(unit: &mut [u8; 618], event: &[u8]) -> Verdict
    ensures { Begins (setup_in event.now) result unit.new }
{
    match event {
        [0, a, b, c, d, e, f, name @ ..] => {
            let start = u16::from_be_bytes([*a, *b]);
            let end = u16::from_be_bytes([*c, *d]);
            let inactivity = u16::from_be_bytes([*e, *f]);
            engine::setup(unit, start, end, inactivity, name)
        }
        _ => engine::setup(unit, 0, 0, 0, &[]),
    }
}

// Prints `f0` and the state of a unit: the session goes on with it.
fn state(unit: &[u8; 618], out: &mut [u8], at: usize) -> Said
    requires { at + 5 ≤ length out.old }
    ensures { Says (stated (unit_of unit.now) []) out.old at unit.now out.new result }
{
    Said {
        phase: Phase::Running,
        end: walk::print_two(out, at, 240, unit.state()),
    }
}

// The first line: the state, or the refusal, and the session stops.
fn begin(verdict: Verdict, unit: &[u8; 618], out: &mut [u8], at: usize) -> Said
    requires { at + 5 ≤ length out.old }
    ensures { Says (begun (unit_of unit.now) verdict) out.old at unit.now out.new result }
{
    match verdict {
        Ok(_) => state(unit, out, at),
        Err(refusal) => Said {
            phase: Phase::Stopped,
            end: walk::print_refusal(out, at, refusal),
        },
    }
}

// A unit's turn at an event, its lines laid into the buffer.
fn turn(unit: &mut [u8; 618], event: &[u8], laid: &mut [u8; 1024]) -> Verdict
    ensures { Lays (unit_of unit.old) (step 1024 (unit_of unit.old) event.now) result unit.new laid.new }
{
    engine::handle(unit, event, laid)
}

// A later line: what the unit answers, and then its state. Inlined, as `answer` is: called, the two cost a twentieth of the listing's time.
#[inline(always)]
fn go_on(verdict: Verdict, laid: &[u8], unit: &[u8; 618], out: &mut [u8], at: usize) -> Said
    requires within { verdict_size verdict laid.now ≤ length laid.now }
    requires few { verdict_size verdict laid.now ≤ 1024 }
    requires room { at + most ≤ length out.old }
    ensures { Says (stated (unit_of unit.now) (verdict_lines verdict laid.now)) out.old at unit.now out.new result }
{
    let end = walk::print_verdict(out, at, laid, verdict);
    state(unit, out, end)
}

// A line of the input, as the event that it is, or none. `out` and `at` stay two: a struct of them would be made in `hear`, which is lent them apart, and
// taken apart in `text::print`, so it is no plainer.
#[inline(always)]
pub(crate) fn answer(
    phase: Phase,
    unit: &mut [u8; 618],
    event: Option<&[u8]>,
    laid: &mut [u8; 1024],
    out: &mut [u8],
    at: usize,
) -> Said
    requires { at + most ≤ length out.old }
    ensures { Says (answer_to phase (unit_of unit.old) (held_in event.entry)) out.old at unit.new out.new result }
{
    match (phase, event) {
        (Phase::First, _) => begin(set_up(unit, event.unwrap_or(&[])), unit, out, at),
        (Phase::Running, Some(event)) => go_on(turn(unit, event, laid), laid, unit, out, at),
        (Phase::Running, None) => go_on(Err(Refusal::NoEvent), &[], unit, out, at),
        (Phase::Stopped, _) => Said { phase, end: at },
    }
}

// The end of the input. A line that is left open is none, and nothing follows it.
pub(crate) fn at_end(phase: Phase, left: bool, unit: &[u8; 618], out: &mut [u8]) -> usize
    requires { most ≤ length out.old }
    ensures { (Put out.old 0 (listed phase (unit_of unit.now) (last_line left)) out.new result) × (result ≤ most) }
{
    match phase {
        Phase::First => walk::print_refusal(out, 0, Refusal::BadSetup),
        Phase::Running if left => go_on(Err(Refusal::NoEvent), &[], unit, out, 0).end,
        _ => 0,
    }
}
