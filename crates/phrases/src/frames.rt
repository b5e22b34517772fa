// A frame in words: each field that is present, in 01's order, or the fault. The frame is read by crate `frame`.
ghost use Rattle.std.specs.Prelude.{◌+◌, Option, ℕ, length};
ghost use Rattle.frame.specs.Decoding.{one_octet, two_octets, held_at};
ghost use Rattle.phrases.specs.Page.{Room, Writes};
ghost use Rattle.phrases.specs.Frames.{numbered, type_words, sender_words, data_words, extension_words, head_words, names_words, rest_words, message_words, fault_words, frame_words, frame_or_nothing, answered_words};

use crate::spelling::Page;
use crate::tables;
use frame::{Fault, Header, Place, Whole};

// A number after a word, where there is one.
fn numbered(page: &mut Page, word: &[u8], n: Option<usize>)
    requires { Room page.old (length word.now + 5) }
    ensures { Writes page.old (numbered word.now n) (length word.now + 5) page.new }
{
    if let Some(n) = n {
        page.say(word);
        page.number(n);
    }
}

fn message_type(page: &mut Page, frame: &[u8], place: Option<Place>)
    requires { Room page.old 12 }
    ensures { Writes page.old (type_words frame.now place) 12 page.new }
{
    numbered(
        page,
        b", type ",
        frame::one_octet(frame, place).map(usize::from),
    );
}

// An identifier or a reference of a frame.
fn number_at(page: &mut Page, word: &[u8], frame: &[u8], place: Option<Place>)
    requires { Room page.old (length word.now + 5) }
    ensures { Writes page.old (numbered word.now (two_octets (held_at frame.now place))) (length word.now + 5) page.new }
{
    numbered(page, word, frame::two_octets(frame, place).map(usize::from));
}

fn sender(page: &mut Page, frame: &[u8], place: Option<Place>)
    requires { Room page.old 84 }
    ensures { Writes page.old (sender_words frame.now place) 84 page.new }
{
    if place.is_some() {
        page.say(b", from ");
        page.beginning(frame::part(frame, place));
    }
}

fn user_data(page: &mut Page, frame: &[u8], place: Option<Place>)
    requires { Room page.old 106 }
    ensures { Writes page.old (data_words frame.now place) 106 page.new }
{
    if place.is_some() {
        let part = frame::part(frame, place);
        page.say(b", user data of length ");
        page.number(part.len());
        page.say(b": ");
        page.beginning(part);
    }
}

fn extensions(page: &mut Page, n: usize)
    requires { Room page.old 25 }
    ensures { Writes page.old (extension_words n) 25 page.new }
{
    if n != 0 {
        page.say(b", extension fields: ");
        page.number(n);
    }
}

// What kind of message it is.
fn head(page: &mut Page, frame: &[u8], h: Header)
    requires { Room page.old 40 }
    ensures { Writes page.old (head_words frame.now h) 40 page.new }
{
    page.say(tables::shot(h.multi_shot));
    page.say(tables::confirmation(h.confirmation));
    message_type(page, frame, h.message_type);
}

// Which message it is, and which it answers.
fn names(page: &mut Page, frame: &[u8], h: Header)
    requires { Room page.old 46 }
    ensures { Writes page.old (names_words frame.now h) 46 page.new }
{
    number_at(page, b", message ", frame, h.identifier);
    number_at(page, b", answers message ", frame, h.reference);
}

// What it carries.
fn rest(page: &mut Page, frame: &[u8], message: Whole)
    requires { Room page.old 215 }
    ensures { Writes page.old (rest_words frame.now message.header message.extensions) 215 page.new }
{
    sender(page, frame, message.header.sender);
    user_data(page, frame, message.header.user_data);
    extensions(page, message.extensions);
}

// Each field that is present.
fn message(page: &mut Page, frame: &[u8], message: Whole)
    requires { Room page.old 310 }
    ensures { Writes page.old (message_words frame.now message.header message.extensions) 310 page.new }
{
    head(page, frame, message.header);
    names(page, frame, message.header);
    rest(page, frame, message);
}

fn fault(page: &mut Page, f: Fault)
    requires { Room page.old 65 }
    ensures { Writes page.old (fault_words f) 65 page.new }
{
    let n = u8::from(f);
    page.say(b"fault ");
    page.number(usize::from(n));
    page.say(b": ");
    page.say(tables::fault_meaning(n));
}

// A frame: its message, or its fault.
pub fn frame_words(page: &mut Page, frame: &[u8])
    requires { Room page.old 310 }
    ensures { Writes page.old (frame_words frame.now) 310 page.new }
{
    match frame::read(frame) {
        Ok(whole) => message(page, frame, whole),
        Err(f) => fault(page, f),
    }
}

// "frame or nothing"
pub fn frame_or_nothing(page: &mut Page, frame: &[u8])
    requires { Room page.old 310 }
    ensures { Writes page.old (frame_or_nothing frame.now) 310 page.new }
{
    if frame.is_empty() {
        page.say(b"no frame");
    } else {
        frame_words(page, frame);
    }
}

// The message that a confirmation answers.
pub fn answered(page: &mut Page, frame: &[u8])
    requires { Room page.old 23 }
    ensures { Writes page.old (answered_words frame.now) 23 page.new }
{
    if let Ok(whole) = frame::read(frame) {
        number_at(page, b" of message ", frame, whole.header.reference);
    }
}
