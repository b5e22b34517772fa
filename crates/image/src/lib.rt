// A unit that can be asked, whatever it is held as: by value, or as its image, the block of 618 octets. And the readers of an image, a field each, over
// a block of any length: an octet that isn't there counts as 0.
#![tactic(auto)]

ghost use Rattle.std.specs.Prelude.{◌≡◌, ◌<◌, get_or};
ghost use Rattle.book.specs.Sound.{limit_of};
ghost use Rattle.image.specs.Image.{two, unit_of};

use book::Terms;

pub mod seen;

// The readers stay beside `Seen`: docs/PROMISES.md names them, for blocks that are no image too. `Seen` for an image is read by them, but for
// the name, the kept frame, and what is clear.

fn octet(u: &[u8], i: usize) -> u8
    ensures { result ≡ get_or u.now i 0 }
{
    u.get(i).copied().unwrap_or(0)
}

fn two(u: &[u8], i: usize) -> u16
    requires { i < 618 }
    ensures { result ≡ two u.now i }
{
    u16::from_be_bytes([octet(u, i), octet(u, i + 1)])
}

#[tactic(auto, unfolding(crate::specs::Image::unit_of))]
pub fn state(u: &[u8]) -> u8
    ensures { result ≡ (unit_of u.now).state }
{
    octet(u, 602)
}

#[tactic(auto, unfolding(crate::specs::Image::unit_of))]
pub fn start(u: &[u8]) -> u16
    ensures { result ≡ (unit_of u.now).start }
{
    two(u, 603)
}

#[tactic(auto, unfolding(crate::specs::Image::unit_of))]
pub fn end(u: &[u8]) -> u16
    ensures { result ≡ (unit_of u.now).end }
{
    two(u, 605)
}

#[tactic(auto, unfolding(crate::specs::Image::unit_of))]
pub fn inactivity(u: &[u8]) -> u16
    ensures { result ≡ (unit_of u.now).inactivity }
{
    two(u, 607)
}

#[tactic(auto, unfolding(crate::specs::Image::unit_of))]
pub fn elapsed(u: &[u8]) -> u16
    ensures { result ≡ (unit_of u.now).elapsed }
{
    two(u, 609)
}

#[tactic(auto, unfolding(crate::specs::Image::unit_of))]
pub fn terms(u: &[u8]) -> Terms
    ensures { result ≡ (unit_of u.now).terms }
{
    Terms {
        class: octet(u, 611),
        priority: octet(u, 612),
        rer: octet(u, 613),
    }
}

#[tactic(auto, unfolding(crate::specs::Image::unit_of))]
pub fn letters(u: &[u8]) -> usize
    ensures value { result ≡ (unit_of u.now).letters }
    ensures small { result < 256 }
{
    usize::from(octet(u, 614))
}

#[tactic(auto, unfolding(crate::specs::Image::unit_of))]
pub fn count(u: &[u8]) -> usize
    ensures value { result ≡ (unit_of u.now).count }
    ensures small { result < 256 }
{
    usize::from(octet(u, 615))
}

#[tactic(auto, unfolding(crate::specs::Image::unit_of))]
pub fn octets(u: &[u8]) -> usize
    ensures { result ≡ (unit_of u.now).octets }
{
    usize::from(two(u, 616))
}

// The identifier at a place of the waiting list.
#[tactic(auto, unfolding(crate::specs::Image::unit_of), using(crate::proofs::ReaderLaws::id_at, crate::proofs::ReaderLaws::id_none))]
pub fn id(u: &[u8], i: usize) -> u16
    ensures { result ≡ get_or (unit_of u.now).waiting i 0 }
{
    if i < 8 { two(u, 32 + 2 * i) } else { 0 }
}

// The limit of the state that a unit is in.
#[tactic(auto, unfolding(book::specs::Sound::limit_of))]
pub fn limit(u: &[u8]) -> u16
    ensures { result ≡ limit_of (unit_of u.now) }
{
    match state(u) {
        4 => inactivity(u),
        3 => end(u),
        _ => start(u),
    }
}
