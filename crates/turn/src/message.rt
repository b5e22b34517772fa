// Messages that were read whole: what the peer sent, and what the user asks.
ghost use Rattle.std.specs.Prelude.{◌≡◌, ◌<◌, Ok, Err, MatchResult};
ghost use Rattle.frame.specs.Decoding.{held_at, two_octets};
ghost use Rattle.frame.specs.Reading.{reading_of};
ghost use Rattle.book.specs.Ready.{Reads};
ghost use Rattle.book.specs.View.{needed};

use book::Terms;
use frame::{Fault, Header, Whole};

// A message, beside the octets that it was read from, and how many extension fields follow it.
#[derive(Clone, Copy)]
pub(crate) struct Message<'a> {
    pub(crate) frame: &'a [u8],
    pub(crate) header: Header,
    pub(crate) extensions: usize,
    ghost reads: { Reads frame.now header extensions },
}

// The user's request: terms, and a message of edition 1 that asks at most for a confirmation.
#[derive(Clone, Copy)]
pub(crate) struct Request<'a> {
    pub(crate) terms: Terms,
    pub(crate) message: Message<'a>,
    ghost reads: { Reads message.frame.now message.header 0 },
    ghost asks: { message.header.confirmation < 2 },
}

impl<'a> Message<'a> {
    // A frame as a message, or its first fault.
    pub(crate) fn read(frame: &'a [u8]) -> Result<Message<'a>, Fault>
        ensures { MatchResult result (λ m. (m.frame.now ≡ frame.now) × (reading_of frame.now ≡ Ok (record { header = m.header; extensions = m.extensions }))) (λ fault. reading_of frame.now ≡ Err fault) }
    {
        let Whole { header, extensions } = frame::read(frame)?;
        Ok(Message {
            frame,
            header,
            extensions,
        })
    }

    // The number by which a confirmation names it.
    pub(crate) fn identifier(&self) -> u16
        ensures { result ≡ needed (two_octets (held_at self.now.frame.now self.now.header.identifier)) }
    {
        frame::two_octets(self.frame, self.header.identifier).unwrap_or(0)
    }

    // The number of the message that it confirms.
    pub(crate) fn reference(&self) -> u16
        ensures { result ≡ needed (two_octets (held_at self.now.frame.now self.now.header.reference)) }
    {
        frame::two_octets(self.frame, self.header.reference).unwrap_or(0)
    }
}
