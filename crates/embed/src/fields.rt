// What is read of a frame, as a block of octets.
ghost use Rattle.std.specs.Prelude.{◌≡◌, ◌++◌};
ghost use Rattle.std.proofs.lemmas.List.Edits.{sets};
ghost use Rattle.embed.specs.Fields.{pair, field_octets, block_of};

use frame::{Place, Whole};

// Two numbers, of two octets each; of a larger one, which no frame has, the lower two, so that there is an answer to every number.
fn pairs(a: usize, b: usize) -> [u8; 4]
    ensures { result ≡ pair a ++ pair b }
{
    let [a_high, a_low] = ((a % 65536) as u16).to_be_bytes();
    let [b_high, b_low] = ((b % 65536) as u16).to_be_bytes();
    [a_high, a_low, b_high, b_low]
}

// A field's place and length.
#[tactic(auto, unfolding(crate::specs::Fields::field_octets))]
fn field_octets(place: Option<Place>) -> [u8; 4]
    ensures { result ≡ field_octets place }
{
    match place {
        None => [0; 4],
        Some(Place { start, len }) => pairs(start, len),
    }
}

// What was read, at the front of a block.
#[tactic(auto, using(crate::proofs::FieldsLaws::block_put))]
pub(crate) fn put_block(out: &mut [u8], whole: Whole)
    ensures { out.new ≡ sets out.old 0 (block_of whole.header whole.extensions) }
{
    let h = whole.header;
    octets::put(out, 0, &[u8::from(h.multi_shot), h.confirmation]);
    octets::put(out, 2, &field_octets(h.message_type));
    octets::put(out, 6, &field_octets(h.identifier));
    octets::put(out, 10, &field_octets(h.reference));
    octets::put(out, 14, &field_octets(h.sender));
    octets::put(out, 18, &field_octets(h.user_data));
    octets::put(out, 22, &pairs(h.end, whole.extensions));
}
