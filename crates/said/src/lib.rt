// What a unit says, whatever it is held as: the pen that lays lines, the notes that a unit makes itself, and the small questions that an event asks of terms and frames.
#![tactic(auto)]

ghost use Rattle.std.specs.Prelude.{◌≡◌, ◌+◌, ◌≤◌, eqb, length, drop, replicate};
ghost use Rattle.std.proofs.lemmas.List.Edits.{sets};
ghost use Rattle.octets.specs.Choice.{pick};
ghost use Rattle.frame.specs.Encoding.{type_octets};
ghost use Rattle.book.specs.Book.{settled};
ghost use Rattle.said.specs.Notes.{AckOf};

use book::Terms;
use frame::Header;

// Where the next line goes, and how many lines stand before it.
#[derive(Clone, Copy, PartialEq, Eq, Default)]
pub struct Pen {
    pub at: usize,
    pub lines: usize,
}

// What a confirmation that the unit makes itself says beside the unit's name. Here and in Say a confirmation and a result are the octets that the line
// carries: an enum between would be turned into them at once, and no line would be plainer.
#[derive(Clone, Copy, PartialEq, Eq)]
pub struct Note {
    pub multi_shot: bool,
    pub confirmation: u8,
    pub message_type: Option<u8>,
    pub reference: u16,
}

// What all the answers of one event say beside the identifier.
#[derive(Clone, Copy, PartialEq, Eq)]
pub struct Say {
    pub result: u8,
    pub multi_shot: bool,
    pub confirmation: u8,
}

// How many octets a note has before its name.
pub fn before_name(message_type: Option<u8>) -> usize
    ensures { (result ≡ 5 + length (type_octets message_type)) × (result ≤ 6) }
{
    5 + usize::from(message_type.is_some())
}

// 0 for confirmedOk, else 1.
pub fn result_of(confirmation: u8) -> u8
    ensures { result ≡ pick (eqb confirmation 2) 0 1 }
{
    if confirmation == 2 { 0 } else { 1 }
}

// The acknowledgement of a confirmed message, as a note.
#[tactic(auto, unfolding(frame::specs::Decoding::message_at))]
pub fn ack_of(frame: &[u8], h: Header) -> Note
    ensures { AckOf frame.now h result }
{
    Note {
        multi_shot: h.multi_shot,
        confirmation: 2,
        message_type: frame::one_octet(frame, h.message_type),
        reference: frame::two_octets(frame, h.identifier).unwrap_or(0),
    }
}

// RER 0 counts as low.
#[tactic(auto, unfolding(book::specs::Book::settled))]
pub fn settle(t: Terms) -> Terms
    ensures { result ≡ settled t }
{
    match t.rer {
        0 => Terms { rer: 1, ..t },
        _ => t,
    }
}

// An event without its first octets; nothing where it has no more.
pub fn after(event: &[u8], from: usize) -> &[u8]
    ensures { result.now ≡ drop from event.now }
{
    event.get(from..).unwrap_or(&[])
}

// A name at the front of an array of 0; what finds no room is left out.
pub fn name_of(name: &[u8]) -> [u8; 32]
    ensures { result ≡ sets (replicate 32 0) 0 name.now }
{
    let mut letters = [0u8; 32];
    octets::put(&mut letters, 0, name);
    letters
}
