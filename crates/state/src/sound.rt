// Whether a unit is sound, whatever it is held as.
ghost use Rattle.std.specs.Prelude.{◌≡◌, ℕ, ◌+◌, ◌<◌, ◌≤◌, length, take, get_or, slice_range};
ghost use Rattle.std.specs.Bool.{OnTrue};
ghost use Rattle.book.specs.Sound.{differ, within_limits, setup_sound, ids_sound, limit_of, idle_sound, busy_sound, kept_reads, kept_sound, state_sound, sound_of};
ghost use Rattle.book.specs.Book.{good, waits};
ghost use Rattle.book.specs.View.{reading_in, frame_at};
ghost use Rattle.book.specs.Ready.{Ready};

use book::Terms;
use frame::Whole;
use image::seen::Seen;

// The limits of setup: 1..65,535 ticks each, a name of 1..32 octets.
#[tactic(auto, unfolding(book::specs::Sound::within_limits))]
pub fn within_limits(start: u16, end: u16, inactivity: u16, letters: usize) -> bool
    ensures { result ≡ within_limits start end inactivity letters }
{
    0 < start && 0 < end && 0 < inactivity && (1..=32).contains(&letters)
}

#[tactic(auto, unfolding(book::specs::Sound::setup_sound))]
fn setup_sound<S: Seen>(u: &S) -> bool
    ensures value { result ≡ setup_sound (S.unit u.now) }
    ensures places { OnTrue result (length (S.unit u.now).name ≡ 32) }
{
    within_limits(u.start(), u.end(), u.inactivity(), u.letters()) && u.is_name_clear()
}

// Whether an identifier stands among the first n of the waiting list, from a place on.
fn is_among<S: Seen>(u: &S, from: usize, n: usize, id: u16) -> bool
    requires { n ≤ length (S.unit u.now).waiting }
    ensures { result ≡ waits id (slice_range (S.unit u.now).waiting from n) }
{
    (from..n).any(|i| u.id(i) == id)
}

// No identifier stands twice among the first n.
#[tactic(auto, using(crate::proofs::Scan::differ_stop, crate::proofs::Scan::differ_on))]
fn distinct<S: Seen>(u: &S, n: usize) -> bool
    requires { n ≤ length (S.unit u.now).waiting }
    ensures { result ≡ differ (take n (S.unit u.now).waiting) }
{
    for i in 0..n {
        if is_among(u, i + 1, n, u.id(i)) {
            return false;
        }
    }
    true
}

#[tactic(auto, unfolding(book::specs::Sound::ids_sound))]
fn ids_sound<S: Seen>(u: &S) -> bool
    ensures value { result ≡ ids_sound (S.unit u.now).waiting (S.unit u.now).count }
    ensures places { OnTrue result (length (S.unit u.now).waiting ≡ 8) }
{
    let n = u.count();
    n <= 8 && u.is_list_clear() && distinct(u, n)
}

// The limit of the state that a unit is in.
#[tactic(auto, unfolding(book::specs::Sound::limit_of))]
pub fn limit_of<S: Seen>(u: &S) -> u16
    ensures { result ≡ limit_of (S.unit u.now) }
{
    match u.state() {
        4 => u.inactivity(),
        3 => u.end(),
        _ => u.start(),
    }
}

#[tactic(auto, unfolding(book::specs::Sound::idle_sound))]
fn idle_sound<S: Seen>(u: &S) -> bool
    ensures { result ≡ idle_sound (S.unit u.now) }
{
    u.elapsed() == 0 && u.count() == 0 && u.terms() == Terms::default()
}

#[tactic(auto, unfolding(book::specs::Sound::busy_sound))]
fn busy_sound<S: Seen>(u: &S) -> bool
    ensures { result ≡ busy_sound (S.unit u.now) }
{
    u.elapsed() < limit_of(u) && (1..3).contains(&u.terms().rer) && (2 < u.state() || u.count() < 2)
}

#[tactic(auto, unfolding(book::specs::Sound::state_sound))]
fn state_sound<S: Seen>(u: &S) -> bool
    ensures { result ≡ state_sound (S.unit u.now) }
{
    match u.state() {
        0 => idle_sound(u),
        state => state < 5 && busy_sound(u),
    }
}

// Whether a message that was read may be the kept one.
#[tactic(auto, using(crate::proofs::KeptLaws::says_plain, crate::proofs::KeptLaws::says_sure, crate::proofs::KeptLaws::says_note))]
fn kept_says<S: Seen>(u: &S, frame: &[u8], whole: Whole) -> bool
    ensures { result ≡ kept_reads (S.unit u.now) (good (frame_at frame.now whole.header) whole.extensions) }
{
    let header = whole.header;
    let alone = whole.extensions == 0 && header.multi_shot;
    match header.confirmation {
        0 => alone && u.count() == 0,
        1 => alone
            && u.count() == 1
            && u.id(0) == frame::two_octets(frame, header.identifier).unwrap_or(0),
        _ => false,
    }
}

#[tactic(auto, using(crate::proofs::KeptLaws::reads_bad, crate::proofs::KeptLaws::reads_good))]
fn kept_reads<S: Seen>(u: &S, frame: &[u8]) -> bool
    ensures { result ≡ kept_reads (S.unit u.now) (reading_in frame.now) }
{
    match frame::read(frame) {
        Ok(whole) => kept_says(u, frame, whole),
        Err(_) => false,
    }
}

// No frame is kept but in Start-multi.
#[tactic(auto, unfolding(book::specs::Sound::kept_sound, book::specs::Sound::kept_good, book::specs::Sound::kept_none))]
fn kept_sound<S: Seen>(u: &S) -> bool
    ensures value { result ≡ kept_sound (S.unit u.now) }
    ensures places { OnTrue result (length (S.unit u.now).kept ≡ 554) }
    ensures octets { OnTrue result ((i : ℕ) → get_or (S.unit u.now).kept i 0 < 256) }
{
    match u.state() {
        2 => u.octets() <= 554 && u.is_kept_clear(u.octets()) && kept_reads(u, u.kept()),
        _ => u.octets() == 0 && u.is_kept_clear(0),
    }
}

// Whether a unit is sound. The cheapest tests come first; one that isn't sound is done with at the first that fails.
#[tactic(auto, using(crate::proofs::Sounds::ready), unfolding(book::specs::Sound::sound_of))]
pub fn sound<S: Seen>(u: &S) -> bool
    ensures value { result ≡ sound_of (S.unit u.now) }
    ensures ready { OnTrue result (Ready (S.unit u.now)) }
{
    setup_sound(u) && state_sound(u) && ids_sound(u) && kept_sound(u)
}
