// The stores: each changes one field of the unit that an image stands for.
ghost use Rattle.std.specs.Prelude.{◌≡◌, ◌≤◌, ◌<◌, ◌+◌, ◌/◌, ◌%◌, length, set, replicate};
ghost use Rattle.std.proofs.lemmas.List.Edits.{sets};
ghost use Rattle.image.specs.Image.{unit_of};
ghost use Rattle.image.specs.Fields.{with_state, with_elapsed, with_terms, with_count, with_octets, with_waiting, with_kept};

use book::Terms;

// A number in two octets, the first one highest.
fn set_two(image: &mut [u8; 618], at: usize, n: u16)
    requires { at + 1 < 618 }
    ensures { image.new ≡ set (set image.old at (n / 256)) (at + 1) (n % 256) }
{
    let [high, low] = n.to_be_bytes();
    image[at] = high;
    image[at + 1] = low;
}

#[tactic(auto, using(image::proofs::StoreLaws::state_stored))]
pub(crate) fn set_state(image: &mut [u8; 618], state: u8)
    ensures { unit_of image.new ≡ with_state (unit_of image.old) state }
{
    image[602] = state;
}

#[tactic(auto, using(image::proofs::StoreLaws::elapsed_stored))]
pub(crate) fn set_elapsed(image: &mut [u8; 618], ticks: u16)
    ensures { unit_of image.new ≡ with_elapsed (unit_of image.old) ticks }
{
    set_two(image, 609, ticks);
}

#[tactic(auto, using(image::proofs::StoreLaws::terms_stored))]
pub(crate) fn set_terms(image: &mut [u8; 618], terms: Terms)
    ensures { unit_of image.new ≡ with_terms (unit_of image.old) terms }
{
    image[611] = terms.class;
    image[612] = terms.priority;
    image[613] = terms.rer;
}

#[tactic(auto, using(image::proofs::StoreLaws::count_stored))]
pub(crate) fn set_count(image: &mut [u8; 618], n: usize)
    requires { n < 256 }
    ensures { unit_of image.new ≡ with_count (unit_of image.old) n }
{
    image[615] = n as u8;
}

#[tactic(auto, using(image::proofs::StoreLaws::octets_stored))]
pub(crate) fn set_octets(image: &mut [u8; 618], n: usize)
    requires { n < 65536 }
    ensures { unit_of image.new ≡ with_octets (unit_of image.old) n }
{
    set_two(image, 616, n as u16);
}

// The identifier at a place of the waiting list.
pub(crate) fn set_id(image: &mut [u8; 618], i: usize, id: u16)
    requires { i < 8 }
    ensures { unit_of image.new ≡ with_waiting (unit_of image.old) (set (unit_of image.old).waiting i id) }
{
    set_two(image, 32 + 2 * i, id);
}

pub(crate) fn clear_ids(image: &mut [u8; 618])
    ensures { unit_of image.new ≡ with_waiting (unit_of image.old) (replicate 8 0) }
{
    image[32..48].fill(0);
}

// The first n octets of the kept frame.
pub(crate) fn clear_kept(image: &mut [u8; 618], n: usize)
    requires { n ≤ 554 }
    ensures { unit_of image.new ≡ with_kept (unit_of image.old) (sets (unit_of image.old).kept 0 (replicate n 0)) }
{
    image[48..48 + n].fill(0);
}

pub(crate) fn put_kept(image: &mut [u8; 618], frame: &[u8])
    requires { length frame.now ≤ 554 }
    ensures { unit_of image.new ≡ with_kept (unit_of image.old) (sets (unit_of image.old).kept 0 frame.now) }
{
    octets::put(image, 48, frame);
}
