// The user's requests: 01 and 02.
ghost use Rattle.std.specs.Prelude.{◌≡◌, true, ◌<◌};
ghost use Rattle.book.specs.Book.{on_request, on_single, on_multi, bar, ids_of, same_terms, settled};
ghost use Rattle.book.specs.View.{reading_in};
ghost use Rattle.book.specs.Picture.{state_of};
ghost use Rattle.book.specs.Ready.{Ready};
ghost use Rattle.turn_laws.specs.Moves.{joined};
ghost use Rattle.said.specs.Saying.{msg_at};
ghost use Rattle.turn.specs.Acts.{Acted};

use crate::column::Column;
use crate::held::Held;
use crate::message::{Message, Request};
use crate::{ROOM, lines, moves};
use book::{Refusal, Terms, Verdict};

// A confirmed message's identifier joins the waiting list.
fn join<H: Held>(u: &mut H, r: &Request)
    requires { (H.unit u.old).count < 8 }
    ensures { H.unit u.new ≡ joined (H.unit u.old) (ids_of (msg_at r.now.message.frame.now r.now.message.header)) }
{
    if r.message.header.confirmation == 1 {
        u.append(r.message.identifier());
    }
}

// A single-shot request in Idle.
fn on_idle_single<H: Held>(u: &mut H, r: &Request, out: &mut [u8; ROOM]) -> Verdict
    requires ready { Ready (H.unit u.old) }
    requires in_state { (H.unit u.old).state ≡ 0 }
    ensures { Acted (H.unit u.old) (on_single r.now.terms (msg_at r.now.message.frame.now r.now.message.header) (state_of (H.unit u.old))) out.old result (H.unit u.new) out.new }
{
    let t = said::settle(r.terms);
    let done = lines::put_message(
        out,
        lines::START,
        [0x30, t.class, t.priority, t.rer],
        &r.message,
    );
    u.enter(1, t);
    join(u, r);
    lines::finished(done)
}

// A multi-shot request in Idle: its frame is kept.
fn on_idle_multi<H: Held>(u: &mut H, r: &Request, out: &mut [u8; ROOM]) -> Verdict
    requires ready { Ready (H.unit u.old) }
    requires in_state { (H.unit u.old).state ≡ 0 }
    ensures { Acted (H.unit u.old) (on_multi (bar r.now.terms (msg_at r.now.message.frame.now r.now.message.header) (state_of (H.unit u.old))) r.now.terms (msg_at r.now.message.frame.now r.now.message.header) (state_of (H.unit u.old))) out.old result (H.unit u.new) out.new }
{
    let t = said::settle(r.terms);
    let done = lines::put_line(out, lines::START, [0x30, t.class, t.priority, t.rer]);
    u.enter(2, t);
    u.keep(r.message.frame);
    join(u, r);
    lines::finished(done)
}

// A multi-shot request in Associated with the dialogue's terms, confirmation 0.
fn on_next_plain<H: Held>(u: &mut H, r: &Request, out: &mut [u8; ROOM]) -> Verdict
    requires ready { Ready (H.unit u.old) }
    requires in_state { (H.unit u.old).state ≡ 4 }
    requires confirmation { r.now.message.header.confirmation ≡ 0 }
    requires same { same_terms (settled r.now.terms) (H.unit u.old).terms ≡ true }
    ensures { Acted (H.unit u.old) (on_multi (bar r.now.terms (msg_at r.now.message.frame.now r.now.message.header) (state_of (H.unit u.old))) r.now.terms (msg_at r.now.message.frame.now r.now.message.header) (state_of (H.unit u.old))) out.old result (H.unit u.new) out.new }
{
    let done = lines::put_message(out, lines::START, [0x32], &r.message);
    u.at_elapsed(4, 0);
    lines::finished(done)
}

// Confirmation 1: refusals 4 and 5, or its identifier waits.
fn on_next_sure<H: Held>(u: &mut H, r: &Request, out: &mut [u8; ROOM]) -> Verdict
    requires ready { Ready (H.unit u.old) }
    requires in_state { (H.unit u.old).state ≡ 4 }
    requires confirmation { r.now.message.header.confirmation ≡ 1 }
    requires same { same_terms (settled r.now.terms) (H.unit u.old).terms ≡ true }
    ensures { Acted (H.unit u.old) (on_multi (bar r.now.terms (msg_at r.now.message.frame.now r.now.message.header) (state_of (H.unit u.old))) r.now.terms (msg_at r.now.message.frame.now r.now.message.header) (state_of (H.unit u.old))) out.old result (H.unit u.new) out.new }
{
    let id = r.message.identifier();
    if u.find(id).is_some() {
        return Err(Refusal::Waits);
    }
    if 8 <= u.count() {
        return Err(Refusal::Full);
    }
    let done = lines::put_message(out, lines::START, [0x32], &r.message);
    u.at_elapsed(4, 0);
    u.append(id);
    lines::finished(done)
}

// A multi-shot request in Associated.
#[tactic(auto, unfolding(book::specs::Book::same_terms))]
fn on_next<H: Held>(u: &mut H, r: &Request, out: &mut [u8; ROOM]) -> Verdict
    requires ready { Ready (H.unit u.old) }
    requires in_state { (H.unit u.old).state ≡ 4 }
    ensures { Acted (H.unit u.old) (on_multi (bar r.now.terms (msg_at r.now.message.frame.now r.now.message.header) (state_of (H.unit u.old))) r.now.terms (msg_at r.now.message.frame.now r.now.message.header) (state_of (H.unit u.old))) out.old result (H.unit u.new) out.new }
{
    let t = said::settle(r.terms);
    let own = u.terms();
    if t != own {
        return Err(Refusal::OtherTerms);
    }
    if r.message.header.confirmation == 0 {
        return on_next_plain(u, r, out);
    }
    on_next_sure(u, r, out)
}

// A multi-shot request.
fn on_multi<H: Held>(u: &mut H, r: &Request, out: &mut [u8; ROOM]) -> Verdict
    requires ready { Ready (H.unit u.old) }
    ensures { Acted (H.unit u.old) (on_multi (bar r.now.terms (msg_at r.now.message.frame.now r.now.message.header) (state_of (H.unit u.old))) r.now.terms (msg_at r.now.message.frame.now r.now.message.header) (state_of (H.unit u.old))) out.old result (H.unit u.new) out.new }
{
    if !moves::takes(u, Column::Multi) {
        return Err(Refusal::WrongState);
    }
    if u.state() == 0 {
        return on_idle_multi(u, r, out);
    }
    on_next(u, r, out)
}

// A single-shot request.
fn on_single<H: Held>(u: &mut H, r: &Request, out: &mut [u8; ROOM]) -> Verdict
    requires ready { Ready (H.unit u.old) }
    ensures { Acted (H.unit u.old) (on_single r.now.terms (msg_at r.now.message.frame.now r.now.message.header) (state_of (H.unit u.old))) out.old result (H.unit u.new) out.new }
{
    if !moves::takes(u, Column::Single) {
        return Err(Refusal::WrongState);
    }
    on_idle_single(u, r, out)
}

// 01, or (confirmed) 02.
pub(crate) fn on_request<H: Held>(
    u: &mut H,
    confirmed: bool,
    terms: Terms,
    frame: &[u8],
    out: &mut [u8; ROOM],
) -> Verdict
    requires ready { Ready (H.unit u.old) }
    ensures { Acted (H.unit u.old) (on_request confirmed terms (reading_in frame.now) (state_of (H.unit u.old))) out.old result (H.unit u.new) out.new }
{
    let Ok(message) = Message::read(frame) else {
        return Err(Refusal::BadFrame);
    };
    if message.extensions != 0 {
        return Err(Refusal::BadFrame);
    }
    if message.header.confirmation != u8::from(confirmed) {
        return Err(Refusal::BadFrame);
    }
    let r = Request { terms, message };
    if message.header.multi_shot {
        return on_multi(u, &r, out);
    }
    on_single(u, &r, out)
}
