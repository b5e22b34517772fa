// The field writers. Each is lent the rest of the buffer, puts its field at the front, and answers how many octets that took.
ghost use Rattle.std.specs.Prelude.{◌≡◌, false, ◌≤◌, length};
ghost use Rattle.std.specs.Option.{option_copied};
ghost use Rattle.std.proofs.lemmas.List.Edits.{sets};
ghost use Rattle.octets.specs.Put.{Put};
ghost use Rattle.frame.specs.Encoding.{type_octets, number_octets, sender_octets, data_octets, first_octet, encode};
ghost use Rattle.frame.specs.Writing.{message_of, PutField, Room, wrong_sender, wrong_data, refusal_of, check_of};

use crate::{Fault, Parts, Refusal, reader};

// A type and a number have a writer each. One for both, over `Option<[u8; N]>`, has its callers make the arrays by `map`, and is no plainer; nor is one
// for sender and data, whose lengths take one octet and two.

// A few octets at the front: where they find room they are stored at once, with no loop over them.
fn put_few<const N: usize>(few: [u8; N], out: &mut [u8])
    ensures { out.new ≡ sets out.old 0 few.entry }
{
    if N <= out.len() {
        out[..N].copy_from_slice(&few);
    } else {
        octets::put(out, 0, &few);
    }
}

fn put_type(message_type: Option<u8>, out: &mut [u8]) -> usize
    ensures { PutField (type_octets message_type) 1 out.old out.new result }
{
    let Some(x) = message_type else {
        return 0;
    };
    put_few([x], out);
    1
}

fn put_number(number: Option<u16>, out: &mut [u8]) -> usize
    ensures { PutField (number_octets number) 2 out.old out.new result }
{
    let Some(n) = number else {
        return 0;
    };
    put_few(n.to_be_bytes(), out);
    2
}

fn put_sender(sender: Option<&[u8]>, out: &mut [u8]) -> usize
    requires { length (sender_octets (option_copied sender)) ≤ 33 }
    ensures { PutField (sender_octets (option_copied sender.entry)) 33 out.old out.new result }
{
    let Some(sender) = sender else {
        return 0;
    };
    put_few([sender.len() as u8], out);
    octets::put(out, 1, sender);
    1 + sender.len()
}

fn put_data(data: Option<&[u8]>, out: &mut [u8]) -> usize
    requires { length (data_octets (option_copied «data»)) ≤ 514 }
    ensures { PutField (data_octets (option_copied «data».entry)) 514 out.old out.new result }
{
    let Some(data) = data else {
        return 0;
    };
    put_few((data.len() as u16).to_be_bytes(), out);
    octets::put(out, 2, data);
    2 + data.len()
}

// Octet 0 of an edition 1 frame.
#[tactic(auto, using(crate::proofs::WriterLaws::flags_sum))]
fn flags(parts: Parts) -> u8
    ensures { result ≡ first_octet false (message_of parts.entry) }
{
    u8::from(parts.message_type.is_some()) * 64
        + u8::from(parts.identifier.is_some()) * 32
        + u8::from(parts.reference.is_some()) * 16
        + u8::from(parts.sender.is_some()) * 8
        + u8::from(parts.user_data.is_some()) * 4
        + u8::from(parts.multi_shot)
}

// The frame: each field straight after what is already in it.
pub(crate) fn put_all(parts: Parts, out: &mut [u8]) -> usize
    requires { Room (message_of parts) out.old }
    ensures { Put out.old 0 (encode (message_of parts.entry)) out.new result }
{
    put_few([flags(parts), parts.confirmation], out);
    let at1 = 2 + put_type(parts.message_type, &mut out[2..]);
    let at2 = at1 + put_number(parts.identifier, &mut out[at1..]);
    let at3 = at2 + put_number(parts.reference, &mut out[at2..]);
    let at4 = at3 + put_sender(parts.sender, &mut out[at3..]);
    at4 + put_data(parts.user_data, &mut out[at4..])
}

// A sender of a length out of range.
#[tactic(auto, unfolding(crate::specs::Writing::wrong_sender))]
fn bad_sender(sender: Option<&[u8]>) -> bool
    ensures { result ≡ wrong_sender (option_copied sender.entry) }
{
    sender.is_some_and(|s| s.is_empty() || 32 < s.len())
}

#[tactic(auto, unfolding(crate::specs::Writing::wrong_data))]
fn bad_data(data: Option<&[u8]>) -> bool
    ensures { result ≡ wrong_data (option_copied «data».entry) }
{
    data.is_some_and(|d| 512 < d.len())
}

// 6, then 13, 15, 14.
#[tactic(auto, unfolding(crate::specs::Writing::refusal_of, crate::specs::Writing::fault_in))]
pub(crate) fn tested(parts: Parts, room: usize) -> Result<(), Refusal>
    ensures { result ≡ check_of (refusal_of room (message_of parts.entry)) }
{
    if room < 1024 {
        return Err(Refusal::NoRoom);
    }
    if 4 < parts.confirmation {
        return Err(Refusal::Faulty(Fault::BadOctet));
    }
    if reader::lacking(
        parts.confirmation,
        parts.identifier.is_some(),
        parts.reference.is_some(),
        parts.sender.is_some(),
    ) {
        return Err(Refusal::Faulty(Fault::Lacking));
    }
    if bad_sender(parts.sender) || bad_data(parts.user_data) {
        return Err(Refusal::Faulty(Fault::BadLength));
    }
    Ok(())
}
