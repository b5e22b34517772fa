// The events that end a dialogue or let it grow old: 03, 04, 13, 14, 15, 16, and the falls. Here as in the other events the kinds of lines, their results
// and reasons, and the states are 01's numbers: lines and units carry them as octets, and so the rule book says them (`cut`, `gone`, `state_of`); an enum
// would be made to be turned into its number at once, which is no plainer.
ghost use Rattle.std.specs.Prelude.{[], ◌∷◌, ◌++◌, ◌+◌, ◌≤◌};
ghost use Rattle.book.specs.Book.{on_end, on_tick, late, on_fin, on_fin_ok, on_abort, gone, waiting_of};
ghost use Rattle.book.specs.Book as Book;
ghost use Rattle.book.specs.Picture.{setup_of, state_of};
ghost use Rattle.book.specs.Ready.{Ready};
ghost use Rattle.said.specs.Pens.{Laid};
ghost use Rattle.said.specs.Saying.{said, maintains, doubts};
ghost use Rattle.turn.specs.Acts.{Acted};

use crate::column::Column;
use crate::held::Held;
use crate::{ROOM, lines, moves};
use book::{Refusal, Verdict};
use said::{Pen, Say};

// Every waiting identifier answered uncertain.
pub(crate) fn put_uncertain<H: Held>(out: &mut [u8; ROOM], pen: Pen, u: &H) -> Pen
    requires ready { Ready (H.unit u.now) }
    requires lines { pen.lines ≤ 10 }
    requires room { pen.at + 338 ≤ 1024 }
    ensures laid { Laid out.old pen (doubts (H.unit u.now)) out.new result }
    ensures place { result.at ≤ pen.at + 336 }
    ensures lines { result.lines ≤ pen.lines + 8 }
{
    let s = u.state();
    let say = Say {
        result: 2,
        multi_shot: s != 1,
        confirmation: 4,
    };
    let n = u.count();
    lines::put_answers(out, pen, say, u, n)
}

// A fall's lines after its 35: every waiting identifier answered uncertain, then 24.
fn put_lost<H: Held>(out: &mut [u8; ROOM], pen: Pen, u: &H, reason: u8) -> Pen
    requires ready { Ready (H.unit u.now) }
    requires lines { pen.lines ≤ 10 }
    requires room { pen.at + 344 ≤ 1024 }
    ensures { Laid out.old pen (doubts (H.unit u.now) ++ said (gone reason ∷ [])) out.new result }
{
    let next = put_uncertain(out, pen, u);
    lines::put_line(out, next, [0x24, reason])
}

// A fall with its 35.
pub(crate) fn fall<H: Held>(u: &mut H, out: &mut [u8; ROOM], reason: u8) -> Verdict
    requires ready { Ready (H.unit u.old) }
    ensures { Acted (H.unit u.old) (Book.fall (setup_of (H.unit u.old)) (maintains (state_of (H.unit u.old))) (waiting_of (state_of (H.unit u.old))) reason) out.old result (H.unit u.new) out.new }
{
    let pen = lines::put_line(out, lines::START, [0x35, reason]);
    let done = put_lost(out, pen, u, reason);
    u.to_idle();
    lines::finished(done)
}

// 15, 16
pub(crate) fn on_abort<H: Held>(u: &mut H, out: &mut [u8; ROOM], reason: u8) -> Verdict
    requires ready { Ready (H.unit u.old) }
    ensures { Acted (H.unit u.old) (on_abort (setup_of (H.unit u.old)) reason (state_of (H.unit u.old))) out.old result (H.unit u.new) out.new }
{
    if !moves::takes(u, Column::Aborted) {
        return Err(Refusal::WrongState);
    }
    let done = put_lost(out, lines::START, u, reason);
    u.to_idle();
    lines::finished(done)
}

// 03
pub(crate) fn on_end<H: Held>(u: &mut H, out: &mut [u8; ROOM]) -> Verdict
    requires ready { Ready (H.unit u.old) }
    ensures { Acted (H.unit u.old) (on_end (state_of (H.unit u.old))) out.old result (H.unit u.new) out.new }
{
    if !moves::takes(u, Column::End) {
        return Err(Refusal::WrongState);
    }
    let done = lines::put_line(out, lines::START, [0x33]);
    u.at_elapsed(3, 0);
    lines::finished(done)
}

// 04
pub(crate) fn on_tick<H: Held>(u: &mut H, out: &mut [u8; ROOM]) -> Verdict
    requires ready { Ready (H.unit u.old) }
    ensures { Acted (H.unit u.old) (on_tick (setup_of (H.unit u.old)) (late (setup_of (H.unit u.old)) (state_of (H.unit u.old))) (state_of (H.unit u.old))) out.old result (H.unit u.new) out.new }
{
    let s = u.state();
    if s == 0 {
        return lines::finished(lines::START);
    }
    let limit = u.limit();
    let e = u.elapsed() + 1;
    if e < limit {
        u.at_elapsed(s, e);
        return lines::finished(lines::START);
    }
    if s == 4 {
        let done = lines::put_line(out, lines::START, [0x33]);
        u.at_elapsed(3, 0);
        return lines::finished(done);
    }
    fall(u, out, 2)
}

// 13
pub(crate) fn on_end_asked<H: Held>(u: &mut H, out: &mut [u8; ROOM]) -> Verdict
    requires ready { Ready (H.unit u.old) }
    ensures { Acted (H.unit u.old) (on_fin (setup_of (H.unit u.old)) (state_of (H.unit u.old))) out.old result (H.unit u.new) out.new }
{
    if !moves::takes(u, Column::EndAsked) {
        return Err(Refusal::WrongState);
    }
    let pen = lines::put_line(out, lines::START, [0x34, 0]);
    let next = put_uncertain(out, pen, u);
    let done = lines::put_line(out, next, [0x23]);
    u.to_idle();
    lines::finished(done)
}

// 14
pub(crate) fn on_end_answered<H: Held>(u: &mut H, out: &mut [u8; ROOM], accepted: bool) -> Verdict
    requires ready { Ready (H.unit u.old) }
    ensures { Acted (H.unit u.old) (on_fin_ok (setup_of (H.unit u.old)) accepted (state_of (H.unit u.old))) out.old result (H.unit u.new) out.new }
{
    if !moves::takes(u, Column::EndAnswered) {
        return Err(Refusal::WrongState);
    }
    if accepted {
        let done = put_uncertain(out, lines::START, u);
        u.to_idle();
        return lines::finished(done);
    }
    u.at_elapsed(4, 0);
    lines::finished(lines::START)
}
