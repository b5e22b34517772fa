// The unit for programs in C and Rust: setup, one event, and the frame's reader and writer, over numbers and octets alone. The caller holds the unit
// as an image of 618 octets.
#![tactic(auto)]

ghost use Rattle.std.specs.Prelude.{◌≡◌, ◌+◌, ◌<◌};
ghost use Rattle.embed.specs.Answer.{refused, number_of, counted, Answers, SetsUp};
ghost use Rattle.embed.specs.Fields.{message_in, Reads, Writes};

use book::{Refusal, Verdict};
use frame::{Fault, Parts, bit};

mod fields;

// A refusal as one number.
fn refused(n: u8) -> u32
    ensures { result ≡ refused n }
{
    0xffffff00 + u32::from(n)
}

// An answer as one number.
#[tactic(auto, unfolding(crate::specs::Answer::counted, crate::specs::Answer::number_of))]
fn number(verdict: Verdict) -> u32
    requires { counted verdict < 4294967040 }
    ensures { result ≡ number_of verdict }
{
    match verdict {
        Ok(done) => 65536 * (done.lines as u32) + (done.octets as u32),
        Err(refusal) => refused(u8::from(refusal)),
    }
}

// A new unit: its limits in ticks, and its name. Refusal 7, and an image of 0, where they are out of range.
#[unsafe(no_mangle)]
pub extern "C" fn stelquorum_setup(
    image: &mut [u8],
    start: u16,
    end: u16,
    inactivity: u16,
    name: &[u8],
) -> u32
    ensures { SetsUp start end inactivity name.now image.old result image.new }
{
    if image.len() != 618 {
        return refused(u8::from(Refusal::NoRoom));
    }
    number(engine::setup(image, start, end, inactivity, name))
}

// One event: the image of the unit after it, and its lines in the lent buffer.
#[unsafe(no_mangle)]
pub extern "C" fn stelquorum_event(image: &mut [u8], event: &[u8], out: &mut [u8]) -> u32
    ensures { Answers image.old event.now out.old result image.new out.new }
{
    number(engine::handle(image, event, out))
}

// Reads a frame: where its fields stand, in the lent block, or its fault.
#[tactic(auto, unfolding(crate::specs::Fields::read_number, crate::specs::Fields::block_after))]
#[unsafe(no_mangle)]
pub extern "C" fn stelquorum_read(frame: &[u8], block: &mut [u8]) -> u32
    ensures { Reads frame.now block.old result block.new }
{
    if block.len() < 26 {
        return refused(u8::from(Refusal::NoRoom));
    }
    match frame::read(frame) {
        Ok(whole) => {
            fields::put_block(block, whole);
            0
        }
        Err(fault) => refused(u8::from(fault)),
    }
}

// Writes an edition 1 frame at the front of `buffer`. The flags are octet 0 of the frame: which fields are present, and multiShot.
#[unsafe(no_mangle)]
pub extern "C" fn stelquorum_write(
    flags: u8,
    confirmation: u8,
    message_type: u8,
    identifier: u16,
    reference: u16,
    sender: &[u8],
    data: &[u8],
    buffer: &mut [u8],
) -> u32
    ensures { Writes flags (message_in flags confirmation message_type identifier reference sender.now «data».now) buffer.old result buffer.new }
{
    if buffer.len() < 1024 {
        return refused(u8::from(Refusal::NoRoom));
    }
    // Bits that edition 1 sets in no frame.
    if bit(flags, 128) || bit(flags, 2) {
        return refused(u8::from(Fault::BadOctet));
    }
    let parts = Parts {
        multi_shot: bit(flags, 1),
        confirmation,
        message_type: bit(flags, 64).then_some(message_type),
        identifier: bit(flags, 32).then_some(identifier),
        reference: bit(flags, 16).then_some(reference),
        sender: bit(flags, 8).then_some(sender),
        user_data: bit(flags, 4).then_some(data),
    };
    match frame::write(parts, buffer) {
        Ok(octets) => octets as u32,
        Err(refusal) => refused(u8::from(refusal)),
    }
}
