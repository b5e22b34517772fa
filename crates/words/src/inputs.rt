// What is said of a line of a listing's input, and the parts that lines share.
ghost use Rattle.std.specs.Prelude.{◌≤◌, ◌+◌, ◌++◌, length};
ghost use Rattle.phrases.specs.Page.{Room, Writes};
ghost use Rattle.phrases.specs.Spelling.{decimal};
ghost use Rattle.words.specs.Lines.{none_words, with_terms, with_start, with_reply, with_frame, with_result, limits_words, setup_words, input_words};

use crate::parts;
use book::{Event, Terms};
use phrases::spelling::Page;
use phrases::{frames, tables};
use state::{events, sound};

// An event that is refused, by 01's number, which is what is said.
fn none(page: &mut Page, refusal: u8)
    requires { Room page.old 140 }
    ensures { Writes page.old (none_words refusal) 140 page.new }
{
    page.say(b"none: refusal ");
    page.number(usize::from(refusal));
    page.say(b": ");
    page.say(tables::refusal_meaning(refusal));
}

// A number after a word.
pub(crate) fn number(page: &mut Page, word: &[u8], n: u16)
    requires { Room page.old (length word.now + 5) }
    ensures { Writes page.old (word.now ++ decimal n) (length word.now + 5) page.new }
{
    page.say(word);
    page.number(usize::from(n));
}

// Terms and the frame after them.
pub(crate) fn with_terms(page: &mut Page, word: &[u8], t: Terms, s: &[u8])
    requires { (length word.now ≤ 40) × Room page.old 420 }
    ensures { Writes page.old (with_terms word.now t s.now) 420 page.new }
{
    page.say(word);
    tables::terms(page, t);
    page.say(b"; ");
    frames::frame_words(page, parts::after(s, 4));
}

// The same, but for a frame or nothing. (What may follow is all that differs; a closure or a flag for it is no plainer than these four lines again.)
pub(crate) fn with_start(page: &mut Page, word: &[u8], t: Terms, s: &[u8])
    requires { (length word.now ≤ 40) × Room page.old 420 }
    ensures { Writes page.old (with_start word.now t s.now) 420 page.new }
{
    page.say(word);
    tables::terms(page, t);
    page.say(b"; ");
    frames::frame_or_nothing(page, parts::after(s, 4));
}

// A result and a frame or nothing.
pub(crate) fn with_reply(page: &mut Page, word: &[u8], yes: bool, s: &[u8])
    requires { (length word.now ≤ 40) × Room page.old 420 }
    ensures { Writes page.old (with_reply word.now yes s.now) 420 page.new }
{
    page.say(word);
    page.say(tables::accepted(yes));
    page.say(b"; ");
    frames::frame_or_nothing(page, parts::after(s, 2));
}

// A frame.
pub(crate) fn with_frame(page: &mut Page, word: &[u8], s: &[u8])
    requires { (length word.now ≤ 40) × Room page.old 420 }
    ensures { Writes page.old (with_frame word.now s.now) 420 page.new }
{
    page.say(word);
    frames::frame_words(page, parts::after(s, 1));
}

// A result.
pub(crate) fn with_result(page: &mut Page, word: &[u8], yes: bool)
    requires { (length word.now ≤ 40) × Room page.old 420 }
    ensures { Writes page.old (with_result word.now yes) 420 page.new }
{
    page.say(word);
    page.say(tables::accepted(yes));
}

// The limits of a setup.
fn limits(page: &mut Page, start: u16, end: u16, inactivity: u16)
    requires { Room page.old 70 }
    ensures { Writes page.old (limits_words start end inactivity) 70 page.new }
{
    number(page, b"in: setup; limits start ", start);
    number(page, b", end ", end);
    number(page, b", inactivity ", inactivity);
}

// 00
pub(crate) fn setup(page: &mut Page, s: &[u8])
    requires { Room page.old 420 }
    ensures { Writes page.old (setup_words s.now) 420 page.new }
{
    if let [_, a, b, c, d, e, f, name @ ..] = s {
        let start = parts::two(*a, *b);
        let end = parts::two(*c, *d);
        let inactivity = parts::two(*e, *f);
        if sound::within_limits(start, end, inactivity, name.len()) {
            limits(page, start, end, inactivity);
            page.say(b" ticks; name ");
            return page.beginning(name);
        }
    }
    none(page, 7)
}

// An event, as the unit reads it.
pub(crate) fn event(page: &mut Page, s: &[u8])
    requires { Room page.old 420 }
    ensures { Writes page.old (input_words s.now) 420 page.new }
{
    match events::event_of(s) {
        Event::Malformed => none(page, 8),
        Event::Transfer(false, t) => with_terms(page, b"in: transfer; ", t, s),
        Event::Transfer(true, t) => with_terms(page, b"in: confirmed transfer; ", t, s),
        Event::End => page.say(b"in: G-END"),
        Event::Tick => page.say(b"in: one tick"),
        Event::StartAsked(t) => with_start(page, b"in: D-START indication; ", t, s),
        Event::StartAnswered(yes) => with_reply(page, b"in: D-START confirmation; ", yes, s),
        Event::Data => with_frame(page, b"in: D-DATA indication; ", s),
        Event::EndAsked => page.say(b"in: D-END indication"),
        Event::EndAnswered(yes) => with_result(page, b"in: D-END confirmation; ", yes),
        Event::Aborted => page.say(b"in: D-ABORT indication"),
        Event::Dropped => page.say(b"in: D-P-ABORT indication"),
    }
}
