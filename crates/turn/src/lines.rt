// Output lines, laid into the lent buffer one after the other. The unit's name, its waiting list and its kept frame are read where they stand.
ghost use Rattle.std.specs.Prelude.{◌≡◌, [], ◌∷◌, ◌++◌, map, ◌+◌, ◌*◌, ◌≤◌, ◌<◌, ◌/◌, ◌%◌, eqb, length, take, Ok};
ghost use Rattle.octets.specs.Choice.{pick};
ghost use Rattle.octets.specs.Put.{Put};
ghost use Rattle.frame.specs.Stripping.{bare_to};
ghost use Rattle.book.specs.Ready.{Ready};
ghost use Rattle.said.specs.Pens.{Laid};
ghost use Rattle.said.specs.Notes.{note_octets, answer_line};
ghost use Rattle.said.specs.Saying.{seen_lines};

use crate::message::Message;
use book::{Done, Verdict};
use image::seen::Seen;
use said::{Note, Pen, Say};

// Where an event's first line goes.
pub(crate) const START: Pen = Pen { at: 0, lines: 0 };

// An accepted event: what was laid.
pub(crate) fn finished(pen: Pen) -> Verdict
    ensures { result ≡ Ok (record { lines = pen.lines; octets = pen.at }) }
{
    Ok(Done {
        lines: pen.lines,
        octets: pen.at,
    })
}

fn put_octets<const N: usize>(out: &mut [u8], at: usize, octets: [u8; N]) -> usize
    requires { at + length octets ≤ length out.old }
    ensures { Put out.old at octets.entry out.new result }
{
    out[at..at + N].copy_from_slice(&octets);
    at + N
}

// The length of a line, of its head and n octets more; and its head.
fn put_head<const N: usize>(out: &mut [u8], at: usize, head: [u8; N], n: usize) -> usize
    requires small { length head + n < 65536 }
    requires room { at + 2 + length head ≤ length out.old }
    ensures { Put out.old at ((length head.entry + n) / 256 ∷ (length head.entry + n) % 256 ∷ head.entry) out.new result }
{
    let length = (N + n) as u16;
    let next = put_octets(out, at, length.to_be_bytes());
    put_octets(out, next, head)
}

// A line that is a head alone.
pub(crate) fn put_line<const N: usize>(out: &mut [u8], pen: Pen, head: [u8; N]) -> Pen
    requires small { length head < 65536 }
    requires lines { pen.lines ≤ 100 }
    requires room { pen.at + 2 + length head ≤ length out.old }
    ensures laid { Laid out.old pen (head.entry ∷ []) out.new result }
    ensures place { result.at ≡ pen.at + 2 + length head.entry }
{
    let next = put_head(out, pen.at, head, 0);
    Pen {
        at: next,
        lines: pen.lines + 1,
    }
}

// Line 25, where there are extension fields.
pub(crate) fn put_seen(out: &mut [u8], m: &Message) -> Pen
    requires { 1024 ≤ length out.old }
    ensures laid { Laid out.old (record { at = 0; lines = 0 }) (seen_lines m.now.extensions) out.new result }
    ensures place { result.at ≤ 5 }
    ensures lines { result.lines ≤ 1 }
{
    let n = m.extensions;
    if n == 0 {
        return START;
    }
    let [high, low] = (n as u16).to_be_bytes();
    put_line(out, START, [0x25, high, low])
}

// A line of a head and a message, without its extension fields.
pub(crate) fn put_message<const N: usize>(
    out: &mut [u8],
    pen: Pen,
    head: [u8; N],
    m: &Message,
) -> Pen
    requires small { length head < 60000 }
    requires lines { pen.lines ≤ 100 }
    requires room { pen.at + 2 + length head + m.now.header.end ≤ length out.old }
    ensures laid { Laid out.old pen ((head.entry ++ bare_to m.now.frame.now m.now.header.end) ∷ []) out.new result }
    ensures place { result.at ≡ pen.at + 2 + length head.entry + m.now.header.end }
{
    let end = m.header.end;
    let next = put_head(out, pen.at, head, end);
    frame::put_bare(m.frame, end, out, next);
    Pen {
        at: next + end,
        lines: pen.lines + 1,
    }
}

// Line 22 with a received message.
pub(crate) fn put_confirmed(out: &mut [u8], pen: Pen, m: &Message) -> Pen
    requires lines { pen.lines ≤ 100 }
    requires room { pen.at + 6 + m.now.header.end ≤ length out.old }
    ensures { Laid out.old pen ((34 ∷ pick (eqb m.now.header.confirmation 2) 0 1 ∷ bare_to m.now.frame.now m.now.header.end) ∷ []) out.new result }
{
    let result = said::result_of(m.header.confirmation);
    put_message(out, pen, [0x22, result], m)
}

// A number of two octets, the length of a name, and the name.
fn put_sender(out: &mut [u8], at: usize, reference: u16, name: &[u8]) -> usize
    requires named { length name.now ≤ 32 }
    requires room { at + 3 + length name.now ≤ length out.old }
    ensures { Put out.old at (reference / 256 ∷ reference % 256 ∷ length name.now ∷ name.now) out.new result }
{
    let [high, low] = reference.to_be_bytes();
    let next = put_octets(out, at, [high, low, name.len() as u8]);
    octets::put(out, next, name);
    next + name.len()
}

// A note's octets: reference and sender present, the type where there is one.
fn put_note(out: &mut [u8], at: usize, note: Note, name: &[u8]) -> usize
    requires most { note.confirmation ≤ 4 }
    requires least { 2 ≤ note.confirmation }
    requires named { length name.now ≤ 32 }
    requires room { at + 6 + length name.now ≤ length out.old }
    ensures { Put out.old at (note_octets note name.now) out.new result }
{
    let shot = u8::from(note.multi_shot);
    let Some(message_type) = note.message_type else {
        let next = put_octets(out, at, [24 + shot, note.confirmation]);
        return put_sender(out, next, note.reference, name);
    };
    let next = put_octets(out, at, [88 + shot, note.confirmation, message_type]);
    put_sender(out, next, note.reference, name)
}

// A line of a head and a note.
pub(crate) fn put_noted<const N: usize>(
    out: &mut [u8],
    pen: Pen,
    head: [u8; N],
    note: Note,
    name: &[u8],
) -> Pen
    requires small { length head ≤ 2 }
    requires most { note.confirmation ≤ 4 }
    requires least { 2 ≤ note.confirmation }
    requires named { length name.now ≤ 32 }
    requires lines { pen.lines ≤ 100 }
    requires room { pen.at + 12 + length name.now ≤ length out.old }
    ensures laid { Laid out.old pen ((head.entry ++ note_octets note name.now) ∷ []) out.new result }
    ensures place { result.at ≤ pen.at + 10 + length name.now }
{
    let size = said::before_name(note.message_type) + name.len();
    let next = put_head(out, pen.at, head, size);
    let used = put_note(out, next, note, name);
    Pen {
        at: used,
        lines: pen.lines + 1,
    }
}

// Line 22 with an answer made locally.
fn put_answer(out: &mut [u8], pen: Pen, say: Say, id: u16, name: &[u8]) -> Pen
    requires most { say.confirmation ≤ 4 }
    requires least { 2 ≤ say.confirmation }
    requires named { length name.now ≤ 32 }
    requires lines { pen.lines ≤ 100 }
    requires room { pen.at + 12 + length name.now ≤ length out.old }
    ensures laid { Laid out.old pen (answer_line say name.now id ∷ []) out.new result }
    ensures place { result.at ≤ pen.at + 10 + length name.now }
{
    let note = Note {
        multi_shot: say.multi_shot,
        confirmation: say.confirmation,
        message_type: None,
        reference: id,
    };
    put_noted(out, pen, [0x22, say.result], note, name)
}

// A line 22 for each of the first n identifiers that wait, in their order.
pub(crate) fn put_answers<H: Seen>(out: &mut [u8], pen: Pen, say: Say, u: &H, n: usize) -> Pen
    requires ready { Ready (H.unit u.now) }
    requires most { say.confirmation ≤ 4 }
    requires least { 2 ≤ say.confirmation }
    requires few { n ≤ 8 }
    requires lines { pen.lines ≤ 10 }
    requires room { pen.at + 42 * n + 2 ≤ length out.old }
    ensures laid { Laid out.old pen (map (answer_line say (take (H.unit u.now).letters (H.unit u.now).name)) (take n (H.unit u.now).waiting)) out.new result }
    ensures place { result.at ≤ pen.at + 42 * n }
    ensures lines { result.lines ≤ pen.lines + n }
{
    let name = u.name();
    let mut next = pen;
    for i in 0..n {
        next = put_answer(out, next, say, u.id(i), name);
    }
    next
}

// Line 32 with the kept frame.
pub(crate) fn put_kept<H: Seen>(out: &mut [u8], pen: Pen, u: &H) -> Pen
    requires ready { Ready (H.unit u.now) }
    requires lines { pen.lines ≤ 100 }
    requires room { pen.at + 557 ≤ length out.old }
    ensures { Laid out.old pen ((50 ∷ take (H.unit u.now).octets (H.unit u.now).kept) ∷ []) out.new result }
{
    let kept = u.kept();
    let next = put_head(out, pen.at, [0x32], kept.len());
    octets::put(out, next, kept);
    Pen {
        at: next + kept.len(),
        lines: pen.lines + 1,
    }
}
