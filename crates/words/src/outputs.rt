// What is said of a line of a listing's output, and of any line by its kind.
ghost use Rattle.std.specs.Prelude.{◌≡◌, ◌≤◌, ◌+◌, ◌++◌, length};
ghost use Rattle.phrases.specs.Page.{Room, Writes};
ghost use Rattle.phrases.specs.Tables.{reason_words};
ghost use Rattle.words.specs.Lines.{output_of, delivery_line, state_words, refused_words, line_words};

use crate::{inputs, parts};
use book::Terms;
use phrases::spelling::Page;
use phrases::{frames, tables};

// A line of a listing, by its kind. Results, reasons, states and refusals stay octets: their words are found by number.
#[derive(Clone, Copy)]
pub enum Output {
    // 00
    Setup,
    // 20, or (true) 21
    Transfer(bool, Terms),
    // 22, and how the message was delivered
    Confirmation(u8),
    // 23
    End,
    // 24, and the reason
    Lost(u8),
    // 25, and how many extension fields
    Seen(u16),
    // 30
    StartRequest(Terms),
    // 31, accepted or not
    StartResponse(bool),
    // 32
    DataRequest,
    // 33
    EndRequest,
    // 34, accepted or not
    EndResponse(bool),
    // 35, and the reason
    AbortRequest(u8),
    // f0
    State(u8),
    // ff, and the refusal
    Refused(u8),
    // A kind of output with a body that it never has.
    Wrong,
    // Any other kind: an event of the input.
    Input,
}

// The line that the octets are.
#[tactic(auto, unfolding(crate::specs::Lines::output_of, book::specs::Events::terms_in))]
fn output_of(s: &[u8]) -> Output
    ensures { result ≡ output_of s.now }
{
    match *s {
        [] | [0x00, ..] => Output::Setup,
        [kind @ 0x20..=0x21, class, priority, rer @ 1..=2, ..] => Output::Transfer(
            kind == 0x21,
            Terms {
                class,
                priority,
                rer,
            },
        ),
        [0x22, result @ 0..=2, ..] => Output::Confirmation(result),
        [0x23] => Output::End,
        [0x24, reason @ (0..=3 | 10..=16)] => Output::Lost(reason),
        [0x25, high, low] => Output::Seen(parts::two(high, low)),
        [0x30, class, priority, rer @ 1..=2, ..] => Output::StartRequest(Terms {
            class,
            priority,
            rer,
        }),
        [0x31, result @ 0..=1, ..] => Output::StartResponse(result == 0),
        [0x32, ..] => Output::DataRequest,
        [0x33] => Output::EndRequest,
        [0x34, result @ 0..=1] => Output::EndResponse(result == 0),
        [0x35, reason @ (0..=3 | 10..=16)] => Output::AbortRequest(reason),
        [0xf0, state @ 0..=4] => Output::State(state),
        [0xff, refusal @ 1..=9] => Output::Refused(refusal),
        [0x20..=0x25 | 0x30 | 0x31 | 0x33..=0x35 | 0xf0 | 0xff, ..] => Output::Wrong,
        _ => Output::Input,
    }
}

// Which message is answered, how, and by what frame.
fn delivered(page: &mut Page, how: u8, s: &[u8])
    requires { Room page.old 420 }
    ensures { Writes page.old (delivery_line how s.now) 420 page.new }
{
    let frame = parts::after(s, 2);
    page.say(b"out: confirmation");
    frames::answered(page, frame);
    page.say(b": ");
    page.say(tables::delivery(how));
    page.say(b"; ");
    frames::frame_words(page, frame);
}

// 24, 35
fn reason(page: &mut Page, word: &[u8], n: u8)
    requires { (length word.now ≤ 40) × Room page.old 420 }
    ensures { Writes page.old (word.now ++ reason_words n) 420 page.new }
{
    page.say(word);
    tables::reason(page, n);
}

// ff
fn refused(page: &mut Page, n: u8)
    requires { Room page.old 420 }
    ensures { Writes page.old (refused_words n) 420 page.new }
{
    page.say(b"refused, ");
    page.number(usize::from(n));
    page.say(b": ");
    page.say(tables::refusal_meaning(n));
}

// f0
fn state(page: &mut Page, n: u8)
    requires { Room page.old 420 }
    ensures { Writes page.old (state_words n) 420 page.new }
{
    page.say(b"state: ");
    page.say(tables::state_name(n));
}

// A line of digits, by its kind.
pub(crate) fn line(page: &mut Page, s: &[u8])
    requires { Room page.old 420 }
    ensures { Writes page.old (line_words s.now) 420 page.new }
{
    match output_of(s) {
        Output::Setup => inputs::setup(page, s),
        Output::Transfer(false, t) => inputs::with_terms(page, b"out: transfer indication; ", t, s),
        Output::Transfer(true, t) => inputs::with_terms(
            page,
            b"out: confirmed transfer indication; ",
            t,
            s,
        ),
        Output::Confirmation(result) => delivered(page, result, s),
        Output::End => page.say(b"out: end"),
        Output::Lost(n) => reason(page, b"out: lost; ", n),
        Output::Seen(n) => inputs::number(page, b"out: extension fields seen: ", n),
        Output::StartRequest(t) => inputs::with_start(page, b"out: D-START request; ", t, s),
        Output::StartResponse(yes) => inputs::with_reply(page, b"out: D-START response; ", yes, s),
        Output::DataRequest => inputs::with_frame(page, b"out: D-DATA request; ", s),
        Output::EndRequest => page.say(b"out: D-END request"),
        Output::EndResponse(yes) => inputs::with_result(page, b"out: D-END response; ", yes),
        Output::AbortRequest(n) => reason(page, b"out: D-ABORT request; ", n),
        Output::State(n) => state(page, n),
        Output::Refused(n) => refused(page, n),
        Output::Wrong => page.say(b"none: the kind of an output line, but not its body"),
        Output::Input => inputs::event(page, s),
    }
}
