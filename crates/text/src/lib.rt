// Lines of digits: where a line of the listing's input ends, the octets that it stands for, and octets printed as a line; and lines heard one after the
// other. Rules: 01, "Events, lines and the listing".
#![tactic(auto)]

ghost use Rattle.std.specs.Prelude.{◌≡◌, ◌≤◌, ◌<◌, ◌*◌, ◌+◌, ◌/◌, ◌%◌, IfSome, None, Some, length, min, cond, nat_lt, take, ◌==◌, ◌&&◌};
ghost use Rattle.std.specs.Option.{option_map};
ghost use Rattle.std.specs.List.{position};
ghost use Rattle.std.proofs.lemmas.List.Edits.{sets};
ghost use Rattle.text.specs.Digits.{value_of, octet_of};
ghost use Rattle.text.specs.Reading.{leading, feed_from, line_in, held_in};
ghost use Rattle.text.specs.Printing.{digit_of, digits_of, fits, printed_in};

pub mod hearing;

// The next line of the input.
#[derive(Clone, Copy)]
pub struct Line {
    // How many octets it stands for. None where it is not lower-case hexadecimal, of an odd count, empty or too long: refusal 8.
    pub octets: Option<usize>,
    // The place after its line feed.
    pub next: usize,
}

// The value of a character as a digit.
#[tactic(auto, unfolding(crate::specs::Digits::value_of))]
fn value_of(c: u8) -> Option<u8>
    ensures value { result ≡ value_of c }
    ensures small { IfSome result (λ v. v < 16) }
{
    match c {
        b'0'..=b'9' => Some(c - b'0'),
        b'a'..=b'f' => Some(c - b'a' + 10),
        _ => None,
    }
}

// The octet of two characters.
fn octet_of(high: u8, low: u8) -> Option<u8>
    ensures { result ≡ octet_of (value_of high) (value_of low) }
{
    Some(16 * value_of(high)? + value_of(low)?)
}

// The octets of the pairs of digits at the front of `s`, put at the front of `event`, as many as find room; how many they are.
fn octets_in(s: &[u8], event: &mut [u8]) -> usize
    ensures count { result ≡ min (length event.old) (length (leading s.now)) }
    ensures octets { event.new ≡ sets event.old 0 (leading s.now) }
{
    let n = event.len().min(s.len() / 2);
    for i in 0..n {
        let Some(octet) = octet_of(s[2 * i], s[2 * i + 1]) else {
            return i;
        };
        event[i] = octet;
    }
    n
}

// The place of the first line feed.
fn first_feed(s: &[u8]) -> Option<usize>
    ensures { result ≡ position (λ c. c == 10) s.now }
{
    s.iter().position(|c| *c == b'\n')
}

// The place of the first line feed from a place on, or the end.
pub fn line_feed(s: &[u8], from: usize) -> usize
    ensures { result ≡ feed_from s.now from }
{
    let Some(rest) = s.get(from..) else {
        return from;
    };
    from + first_feed(rest).unwrap_or(rest.len())
}

// How many octets a line is that ends at `end` and has n pairs of digits at its front; None where that is not all of it, or it is empty.
fn event_len(n: usize, end: usize) -> Option<usize>
    requires { n ≤ 2048 }
    ensures { result ≡ cond (nat_lt 0 n && (end == 2 * n)) (Some n) None }
{
    if 0 < n && end == 2 * n { Some(n) } else { None }
}

// The line at the front of `s`; None where it has no line feed yet. One pass over its digits, and on to its line feed only where it is refused or still to come.
pub fn line_in(s: &[u8], event: &mut [u8; 2048]) -> Option<Line>
    ensures { (result ≡ line_in s.now) × ((event.new ≡ sets event.old 0 (leading s.now)) × (length event.old ≡ 2048)) }
{
    let n = octets_in(s, event);
    let end = line_feed(s, 2 * n);
    if s.len() <= end {
        return None;
    }
    Some(Line {
        octets: event_len(n, end),
        next: end + 1,
    })
}

// The octets of a line, in the array that it was read with; none of a line that is refused.
pub fn octets_of(line: Line, event: &[u8; 2048]) -> Option<&[u8]>
    ensures { held_in result ≡ option_map (λ k. take k event.now) line.octets }
{
    match line.octets {
        Some(n) => Some(&event[..n.min(2048)]),
        None => None,
    }
}

// The digit of a value.
#[tactic(auto, unfolding(crate::specs::Printing::digit_of))]
fn digit_of(v: u8) -> u8
    requires { v < 16 }
    ensures { result ≡ digit_of v }
{
    match v {
        0..=9 => b'0' + v,
        _ => b'a' + (v - 10),
    }
}

// Whether the digits of n octets and a line feed have room from a place on.
#[tactic(auto, unfolding(crate::specs::Printing::fits))]
fn fits(room: usize, at: usize, n: usize) -> bool
    ensures { result ≡ fits room at n }
{
    at < room && n <= (room - at - 1) / 2
}

// The digits of octets, from a place on. Here and in `print`, which stand below pages (crate phrases), a lone buffer and a place are no less plain.
pub fn put_digits(out: &mut [u8], at: usize, line: &[u8]) -> usize
    requires { at + 2 * length line.now < length out.old }
    ensures { (result ≡ at + 2 * length line.now) × (out.new ≡ sets out.old at (digits_of line.now)) }
{
    for (i, x) in line.iter().enumerate() {
        out[at + 2 * i] = digit_of(*x / 16);
        out[at + 2 * i + 1] = digit_of(*x % 16);
    }
    at + 2 * line.len()
}

// Octets as a line of the listing's output, from a place on; nothing where the whole line has no room. The place after it.
#[tactic(auto, using(crate::proofs::PrintLaws::fits_in))]
pub fn print(out: &mut [u8], at: usize, line: &[u8]) -> usize
    ensures { (result ≡ at + length (printed_in (length out.old) at line.now)) × (out.new ≡ sets out.old at (printed_in (length out.old) at line.now)) }
{
    if fits(out.len(), at, line.len()) {
        let end = put_digits(out, at, line);
        out[end] = b'\n';
        return end + 1;
    }
    at
}
