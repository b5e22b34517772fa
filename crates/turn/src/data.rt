// 12, a D-DATA indication, in Associated and Ending.
ghost use Rattle.std.specs.Prelude.{◌≡◌, true, ◌≤◌};
ghost use Rattle.book.specs.Book.{on_dat, good};
ghost use Rattle.book.specs.View.{reading_in, frame_at};
ghost use Rattle.book.specs.Picture.{setup_of, state_of};
ghost use Rattle.book.specs.Turns.{takes};
ghost use Rattle.book.specs.Ready.{Ready};
ghost use Rattle.turn.specs.Acts.{Acted};

use crate::column::Column;
use crate::held::Held;
use crate::message::Message;
use crate::{ROOM, ends, lines, moves};
use book::{Refusal, Verdict};

// Confirmation 0.
fn on_plain<H: Held>(u: &mut H, m: &Message, out: &mut [u8; ROOM]) -> Verdict
    requires ready { Ready (H.unit u.old) }
    requires taken { takes (H.unit u.old).state 6 ≡ true }
    requires confirmation { m.now.header.confirmation ≡ 0 }
    ensures { Acted (H.unit u.old) (on_dat (setup_of (H.unit u.old)) (good (frame_at m.now.frame.now m.now.header) m.now.extensions) (state_of (H.unit u.old))) out.old result (H.unit u.new) out.new }
{
    let pen = lines::put_seen(out, m);
    let t = u.terms();
    let done = lines::put_message(out, pen, [0x20, t.class, t.priority, t.rer], m);
    moves::rest(u);
    lines::finished(done)
}

// Confirmation 1: in Associated with an acknowledgement, in Ending without.
fn on_sure<H: Held>(u: &mut H, m: &Message, out: &mut [u8; ROOM]) -> Verdict
    requires ready { Ready (H.unit u.old) }
    requires taken { takes (H.unit u.old).state 6 ≡ true }
    requires confirmation { m.now.header.confirmation ≡ 1 }
    ensures { Acted (H.unit u.old) (on_dat (setup_of (H.unit u.old)) (good (frame_at m.now.frame.now m.now.header) m.now.extensions) (state_of (H.unit u.old))) out.old result (H.unit u.new) out.new }
{
    let pen = lines::put_seen(out, m);
    let t = u.terms();
    let given = lines::put_message(out, pen, [0x21, t.class, t.priority, t.rer], m);
    let s = u.state();
    if s == 4 {
        let note = said::ack_of(m.frame, m.header);
        let done = lines::put_noted(out, given, [0x32], note, u.name());
        moves::rest(u);
        return lines::finished(done);
    }
    moves::rest(u);
    lines::finished(given)
}

// Confirmation 2 to 4: an answer, if its reference waits.
fn on_note<H: Held>(u: &mut H, m: &Message, out: &mut [u8; ROOM]) -> Verdict
    requires ready { Ready (H.unit u.old) }
    requires taken { takes (H.unit u.old).state 6 ≡ true }
    requires confirmation { 2 ≤ m.now.header.confirmation }
    ensures { Acted (H.unit u.old) (on_dat (setup_of (H.unit u.old)) (good (frame_at m.now.frame.now m.now.header) m.now.extensions) (state_of (H.unit u.old))) out.old result (H.unit u.new) out.new }
{
    let pen = lines::put_seen(out, m);
    let reference = m.reference();
    let found = u.find(reference);
    moves::rest(u);
    let Some(place) = found else {
        return lines::finished(pen);
    };
    let done = lines::put_confirmed(out, pen, m);
    u.remove(place);
    lines::finished(done)
}

fn on_message<H: Held>(u: &mut H, m: &Message, out: &mut [u8; ROOM]) -> Verdict
    requires ready { Ready (H.unit u.old) }
    requires taken { takes (H.unit u.old).state 6 ≡ true }
    ensures { Acted (H.unit u.old) (on_dat (setup_of (H.unit u.old)) (good (frame_at m.now.frame.now m.now.header) m.now.extensions) (state_of (H.unit u.old))) out.old result (H.unit u.new) out.new }
{
    match m.header.confirmation {
        0 => on_plain(u, m, out),
        1 => on_sure(u, m, out),
        _ => on_note(u, m, out),
    }
}

pub(crate) fn on_data<H: Held>(u: &mut H, frame: &[u8], out: &mut [u8; ROOM]) -> Verdict
    requires ready { Ready (H.unit u.old) }
    ensures { Acted (H.unit u.old) (on_dat (setup_of (H.unit u.old)) (reading_in frame.now) (state_of (H.unit u.old))) out.old result (H.unit u.new) out.new }
{
    if !moves::takes(u, Column::Data) {
        return Err(Refusal::WrongState);
    }
    match Message::read(frame) {
        Err(fault) => ends::fall(u, out, u8::from(fault)),
        Ok(m) => on_message(u, &m, out),
    }
}
