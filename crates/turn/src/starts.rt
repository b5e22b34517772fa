// The events that begin a dialogue: 10, and 11 in the two start states.
ghost use Rattle.std.specs.Prelude.{◌≡◌, true, false, [], ◌∷◌, ◌≤◌, ◌<◌, None, Some};
ghost use Rattle.book.specs.Book.{on_start, on_reply, first_contact, good, done, idle, with_seen, send, cut};
ghost use Rattle.book.specs.Picture.{setup_of, state_of};
ghost use Rattle.book.specs.Step.{or_nothing};
ghost use Rattle.book.specs.Ready.{Ready};
ghost use Rattle.book.specs.View.{frame_at};
ghost use Rattle.said.specs.Saying.{greeted};
ghost use Rattle.turn.specs.Acts.{Acted};

use crate::column::Column;
use crate::held::Held;
use crate::message::Message;
use crate::{ROOM, ends, lines, moves};
use book::{Refusal, Terms, Verdict};
use said::Say;

// A valid frame that is not expected here: 35 reason 10, and the unit stays.
fn cut_off<H: Held>(u: &H, m: &Message, out: &mut [u8; ROOM]) -> Verdict
    requires ready { Ready (H.unit u.now) }
    requires in_state { (H.unit u.now).state ≡ 0 }
    ensures { Acted (H.unit u.now) (done idle (with_seen m.now.extensions (send (cut 10) ∷ []))) out.old result (H.unit u.now) out.new }
{
    let pen = lines::put_seen(out, m);
    let done = lines::put_line(out, pen, [0x35, 10]);
    lines::finished(done)
}

// A single-shot message, given to the user: 31 rejected, for confirmation 1 with an acknowledgement.
fn on_single_shot<H: Held>(u: &H, a: Terms, m: &Message, out: &mut [u8; ROOM]) -> Verdict
    requires ready { Ready (H.unit u.now) }
    requires in_state { (H.unit u.now).state ≡ 0 }
    requires confirmation { m.now.header.confirmation < 2 }
    requires single { m.now.header.multi_shot ≡ false }
    ensures { Acted (H.unit u.now) (greeted (setup_of (H.unit u.now)) a (frame_at m.now.frame.now m.now.header) m.now.extensions) out.old result (H.unit u.now) out.new }
{
    let pen = lines::put_seen(out, m);
    if m.header.confirmation == 0 {
        let given = lines::put_message(out, pen, [0x20, a.class, a.priority, a.rer], m);
        let done = lines::put_line(out, given, [0x31, 1]);
        return lines::finished(done);
    }
    let given = lines::put_message(out, pen, [0x21, a.class, a.priority, a.rer], m);
    let note = said::ack_of(m.frame, m.header);
    let done = lines::put_noted(out, given, [0x31, 1], note, u.name());
    lines::finished(done)
}

// 10 with a valid frame.
fn on_greeted<H: Held>(u: &H, a: Terms, m: &Message, out: &mut [u8; ROOM]) -> Verdict
    requires ready { Ready (H.unit u.now) }
    requires in_state { (H.unit u.now).state ≡ 0 }
    ensures { Acted (H.unit u.now) (greeted (setup_of (H.unit u.now)) a (frame_at m.now.frame.now m.now.header) m.now.extensions) out.old result (H.unit u.now) out.new }
{
    if 1 < m.header.confirmation {
        return cut_off(u, m, out);
    }
    if m.header.multi_shot {
        return cut_off(u, m, out);
    }
    on_single_shot(u, a, m, out)
}

// 10 without a frame.
fn on_opened<H: Held>(u: &mut H, a: Terms, out: &mut [u8; ROOM]) -> Verdict
    requires ready { Ready (H.unit u.old) }
    requires in_state { (H.unit u.old).state ≡ 0 }
    ensures { Acted (H.unit u.old) (first_contact (setup_of (H.unit u.old)) a None) out.old result (H.unit u.new) out.new }
{
    let done = lines::put_line(out, lines::START, [0x31, 0]);
    u.enter(4, a);
    lines::finished(done)
}

// 10 with a faulty frame: 35 with the fault, and the unit stays.
fn on_faulty_start<H: Held>(u: &H, reason: u8, out: &mut [u8; ROOM]) -> Verdict
    requires ready { Ready (H.unit u.now) }
    requires in_state { (H.unit u.now).state ≡ 0 }
    ensures { Acted (H.unit u.now) (done idle (send (cut reason) ∷ [])) out.old result (H.unit u.now) out.new }
{
    let done = lines::put_line(out, lines::START, [0x35, reason]);
    lines::finished(done)
}

// 10
pub(crate) fn on_start<H: Held>(u: &mut H, a: Terms, frame: &[u8], out: &mut [u8; ROOM]) -> Verdict
    requires ready { Ready (H.unit u.old) }
    ensures { Acted (H.unit u.old) (on_start (setup_of (H.unit u.old)) a (or_nothing frame.now) (state_of (H.unit u.old))) out.old result (H.unit u.new) out.new }
{
    if !moves::takes(u, Column::StartAsked) {
        return Err(Refusal::WrongState);
    }
    if frame.len() == 0 {
        return on_opened(u, a, out);
    }
    match Message::read(frame) {
        Err(fault) => on_faulty_start(u, u8::from(fault), out),
        Ok(m) => on_greeted(u, a, &m, out),
    }
}

// The one that waits in Start-single answered uncertain.
fn on_unanswered<H: Held>(u: &mut H, out: &mut [u8; ROOM]) -> Verdict
    requires ready { Ready (H.unit u.old) }
    requires in_state { (H.unit u.old).state ≡ 1 }
    requires waits { 1 ≤ (H.unit u.old).count }
    ensures { Acted (H.unit u.old) (on_reply (setup_of (H.unit u.old)) false None (state_of (H.unit u.old))) out.old result (H.unit u.new) out.new }
{
    let say = Say {
        result: 2,
        multi_shot: false,
        confirmation: 4,
    };
    let done = lines::put_answers(out, lines::START, say, u, 1);
    u.to_idle();
    lines::finished(done)
}

// The one that waits in Start-single answered by a valid frame.
fn on_answered<H: Held>(u: &mut H, m: &Message, out: &mut [u8; ROOM]) -> Verdict
    requires ready { Ready (H.unit u.old) }
    requires in_state { (H.unit u.old).state ≡ 1 }
    requires waits { 1 ≤ (H.unit u.old).count }
    ensures { Acted (H.unit u.old) (on_reply (setup_of (H.unit u.old)) false (Some (good (frame_at m.now.frame.now m.now.header) m.now.extensions)) (state_of (H.unit u.old))) out.old result (H.unit u.new) out.new }
{
    let pen = lines::put_seen(out, m);
    let done = lines::put_confirmed(out, pen, m);
    u.to_idle();
    lines::finished(done)
}

// 11 rejected in Start-single.
fn on_single_answer<H: Held>(u: &mut H, frame: &[u8], out: &mut [u8; ROOM]) -> Verdict
    requires ready { Ready (H.unit u.old) }
    requires in_state { (H.unit u.old).state ≡ 1 }
    ensures { Acted (H.unit u.old) (on_reply (setup_of (H.unit u.old)) false (or_nothing frame.now) (state_of (H.unit u.old))) out.old result (H.unit u.new) out.new }
{
    if u.count() == 0 {
        u.to_idle();
        return lines::finished(lines::START);
    }
    if frame.len() == 0 {
        return on_unanswered(u, out);
    }
    match Message::read(frame) {
        Err(_) => on_unanswered(u, out),
        Ok(m) => on_answered(u, &m, out),
    }
}

// 11 accepted in Start-multi, without a frame: the kept frame goes out.
fn on_begun<H: Held>(u: &mut H, out: &mut [u8; ROOM]) -> Verdict
    requires ready { Ready (H.unit u.old) }
    requires in_state { (H.unit u.old).state ≡ 2 }
    ensures { Acted (H.unit u.old) (on_reply (setup_of (H.unit u.old)) true None (state_of (H.unit u.old))) out.old result (H.unit u.new) out.new }
{
    let done = lines::put_kept(out, lines::START, u);
    let t = u.terms();
    u.enter(4, t);
    lines::finished(done)
}

// 11 rejected in Start-multi.
fn on_turned_down<H: Held>(u: &mut H, out: &mut [u8; ROOM]) -> Verdict
    requires ready { Ready (H.unit u.old) }
    requires in_state { (H.unit u.old).state ≡ 2 }
    ensures { Acted (H.unit u.old) (on_reply (setup_of (H.unit u.old)) false None (state_of (H.unit u.old))) out.old result (H.unit u.new) out.new }
{
    let say = Say {
        result: 1,
        multi_shot: true,
        confirmation: 3,
    };
    let n = u.count();
    let pen = lines::put_answers(out, lines::START, say, u, n);
    let done = lines::put_line(out, pen, [0x24, 3]);
    u.to_idle();
    lines::finished(done)
}

// 11 in Start-multi.
fn on_multi_answer<H: Held>(
    u: &mut H,
    accepted: bool,
    frame: &[u8],
    out: &mut [u8; ROOM],
) -> Verdict
    requires ready { Ready (H.unit u.old) }
    requires in_state { (H.unit u.old).state ≡ 2 }
    ensures { Acted (H.unit u.old) (on_reply (setup_of (H.unit u.old)) accepted (or_nothing frame.now) (state_of (H.unit u.old))) out.old result (H.unit u.new) out.new }
{
    if accepted {
        if frame.len() == 0 {
            return on_begun(u, out);
        }
        return ends::fall(u, out, 10);
    }
    on_turned_down(u, out)
}

// 11
pub(crate) fn on_reply<H: Held>(
    u: &mut H,
    accepted: bool,
    frame: &[u8],
    out: &mut [u8; ROOM],
) -> Verdict
    requires ready { Ready (H.unit u.old) }
    ensures { Acted (H.unit u.old) (on_reply (setup_of (H.unit u.old)) accepted (or_nothing frame.now) (state_of (H.unit u.old))) out.old result (H.unit u.new) out.new }
{
    if !moves::takes(u, Column::StartAnswered) {
        return Err(Refusal::WrongState);
    }
    if u.state() == 2 {
        return on_multi_answer(u, accepted, frame, out);
    }
    if accepted {
        return ends::fall(u, out, 10);
    }
    on_single_answer(u, frame, out)
}
