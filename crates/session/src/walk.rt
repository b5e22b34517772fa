// Printing: two octets, and the lines that a unit laid into its buffer.
ghost use Rattle.std.specs.Prelude.{◌≡◌, ◌∷◌, [], ◌≤◌, ◌+◌, ◌*◌, length};
ghost use Rattle.octets.specs.Put.{Put};
ghost use Rattle.session.specs.Listing.{text, refusal_line};
ghost use Rattle.session.specs.Walking.{lines_in, size_of, verdict_lines, verdict_size};

use book::{Refusal, Verdict};

// A line of two octets.
pub(crate) fn print_two(out: &mut [u8], at: usize, kind: u8, number: u8) -> usize
    requires { at + 5 ≤ length out.old }
    ensures { (Put out.old at (text ((kind ∷ number ∷ []) ∷ [])) out.new result) × (result ≡ at + 5) }
{
    text::print(out, at, &[kind, number])
}

// `ff` and the number of a refusal.
pub(crate) fn print_refusal(out: &mut [u8], at: usize, refusal: Refusal) -> usize
    requires { at + 5 ≤ length out.old }
    ensures { (Put out.old at (text (refusal_line refusal ∷ [])) out.new result) × (result ≡ at + 5) }
{
    print_two(out, at, 255, u8::from(refusal))
}

// The first n lines that were laid. Each takes two octets for its length, so twice the octets have room for what is printed.
fn print_laid(out: &mut [u8], at: usize, laid: &[u8], n: usize) -> usize
    requires { (size_of n laid.now ≤ length laid.now) × (at + 2 * size_of n laid.now ≤ length out.old) }
    ensures { Put out.old at (text (lines_in n laid.now)) out.new result }
{
    let mut place = at;
    let mut rest = laid;
    for _ in 0..n {
        let long = usize::from(u16::from_be_bytes([rest[0], rest[1]]));
        let (line, next) = rest[2..].split_at(long);
        place = text::print(out, place, line);
        rest = next;
    }
    place
}

// A unit's answer: the lines that it laid, or the refusal. Inlined for speed, as its caller is.
#[inline(always)]
pub(crate) fn print_verdict(out: &mut [u8], at: usize, laid: &[u8], verdict: Verdict) -> usize
    requires within { verdict_size verdict laid.now ≤ length laid.now }
    requires few { verdict_size verdict laid.now ≤ 1024 }
    requires room { at + 2048 ≤ length out.old }
    ensures { (Put out.old at (text (verdict_lines verdict laid.now)) out.new result) × (result ≤ at + 2048) }
{
    match verdict {
        Ok(done) => print_laid(out, at, laid, done.lines),
        Err(refusal) => print_refusal(out, at, refusal),
    }
}
