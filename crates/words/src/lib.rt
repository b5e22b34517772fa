// Lines of a listing in plain words: text in, text out, in parts of any length. The rules are 01's, "Events, lines and the listing"; the words are in
// specs/Lines and in crate `phrases`. The lines are heard one after the other by text's reader; here is what is said of each.
#![tactic(auto)]

ghost use Rattle.std.specs.Prelude.{◌≡◌, ◌≤◌, ◌+◌, Bool, length, drop, Some, None, ◌<◌, ◌^◌};
ghost use Rattle.octets.specs.Choice.{pick};
ghost use Rattle.octets.specs.Put.{Put};
ghost use Rattle.text.specs.Reading.{held_in};
ghost use Rattle.phrases.specs.Page.{Room, Writes};
ghost use Rattle.words.specs.Lines.{words_of, begins, frame_word};
ghost use Rattle.words.specs.Feeding.{margin, line_text, standing, indented_of, fresh, longest, answer, most, Feeds, finishing};
ghost use Rattle.words.specs.Taking.{Explains, Digits};

use phrases::frames;
use phrases::spelling::Page;
use text::hearing;
use text::hearing::Hearer;

mod inputs;
mod outputs;
mod parts;

// Who explains lines.
#[derive(Clone, Copy)]
pub struct Explainer {
    // Each line of the output begins with two spaces.
    pub indented: bool,
}

// A reader: who explains, and whether a line that is too long is being passed over.
pub type Reader = hearing::Reader<Explainer>;

// The reader after a part of its input, how many characters of it were taken, and how many were written.
pub type Fed = hearing::Fed<Reader>;

// The words for a line's octets, which are a bare frame or not; or that it has none. Inlined, as `say`, `explain` and `digits` are: called, each costs an empty
// line a quarter of its instructions or more.
#[inline(always)]
fn words(page: &mut Page, framed: bool, octets: Option<&[u8]>)
    requires { Room page.old 420 }
    ensures { Writes page.old (words_of framed (held_in octets.entry)) 420 page.new }
{
    match octets {
        Some(octets) if framed => {
            page.say(b"frame: ");
            frames::frame_words(page, octets);
        }
        Some(octets) => outputs::line(page, octets),
        None => page.say(
            b"none: refusal 8: not an even number of lower-case hexadecimal digits, 2 to 4,096, and a line feed",
        ),
    }
}

// The digits behind the word for a bare frame, where the input begins with it. Letter by letter, so that most lines are known by their first: `strip_prefix`
// reads all six of each line.
fn bare(input: &[u8]) -> Option<&[u8]>
    ensures { held_in result ≡ pick (begins frame_word input.now) (Some (drop 6 input.now)) None }
{
    match input {
        [b'f', b'r', b'a', b'm', b'e', b' ', digits @ ..] => Some(digits),
        _ => None,
    }
}

impl Explainer {
    // Two spaces, where lines are indented.
    fn margin(self, page: &mut Page)
        requires { Room page.old 2 }
        ensures { Writes page.old (margin self.indented) 2 page.new }
    {
        if self.indented {
            page.say(b"  ");
        }
    }

    // What is said of a line's octets, on a line of its own.
    #[inline(always)]
    fn say(self, page: &mut Page, framed: bool, octets: Option<&[u8]>)
        requires { Room page.old most }
        ensures { Writes page.old (line_text self.indented (words_of framed (held_in octets.entry))) most page.new }
    {
        self.margin(page);
        words(page, framed, octets);
        page.say(b"\n");
    }

    // The same from a place of the output on; the next line of the input starts at `next`.
    #[inline(always)]
    fn explain(
        self,
        framed: bool,
        octets: Option<&[u8]>,
        next: usize,
        out: &mut [u8],
        at: usize,
    ) -> hearing::Fed<Explainer>
        requires { at + most ≤ length out.old }
        ensures { Explains self (words_of framed (held_in octets.entry)) next out.old at out.new result }
    {
        let mut page = Page { out, at };
        self.say(&mut page, framed, octets);
        hearing::Fed {
            state: self,
            taken: next,
            written: page.at,
        }
    }

    // Digits that begin n characters behind the front of their line.
    #[inline(always)]
    fn digits(
        self,
        framed: bool,
        n: usize,
        digits: &[u8],
        desk: &mut [u8; 2048],
        out: &mut [u8],
        at: usize,
    ) -> Option<hearing::Fed<Explainer>>
        requires { (n + length digits.now < 2 ^ 64) × (at + most ≤ length out.old) }
        ensures { Digits self framed n digits.now out.old at out.new result }
    {
        let line = text::line_in(digits, desk)?;
        let octets = text::octets_of(line, desk);
        Some(self.explain(framed, octets, n + line.next, out, at))
    }
}

impl Hearer for Explainer {
    type Unit = ();

    type Desk = [u8; 2048];

    const LONGEST: usize = 4102;

    ghost LONGEST = { longest };

    const MOST: usize = 512;

    ghost MOST = { most };

    ghost State = { Bool };

    ghost state = { indented_of };

    ghost answer = { answer };

    // A line may begin with the word for a bare frame.
    fn hear(
        self,
        _unit: &mut (),
        desk: &mut [u8; 2048],
        input: &[u8],
        out: &mut [u8],
        at: usize,
    ) -> Option<hearing::Fed<Explainer>> {
        match bare(input) {
            Some(digits) => self.digits(true, 6, digits, desk, out, at),
            None => self.digits(false, 0, input, desk, out, at),
        }
    }

    fn refuse(
        self,
        _unit: &mut (),
        next: usize,
        out: &mut [u8],
        at: usize,
    ) -> hearing::Fed<Explainer> {
        self.explain(false, None, next, out, at)
    }
}

// A reader before its first line.
pub fn fresh(indented: bool) -> Reader
    ensures { result ≡ fresh indented }
{
    Reader {
        hearer: Explainer { indented },
        passing: false,
    }
}

// Hands a reader a part of its input, and prints at the front of `out`. What is left of the input is an open line, or waits for room in `out`.
pub fn feed(s: Reader, input: &[u8], out: &mut [u8]) -> Fed
    ensures { Feeds (standing s) input.now out.old result out.new }
{
    hearing::feed(s, &mut (), &mut [0; 2048], input, out)
}

// The end of the input, of which `held` is left: prints at the front of `out`, and answers how many characters were written.
pub fn finish(s: Reader, held: &[u8], out: &mut [u8]) -> usize
    ensures { (Put out.old 0 (finishing (length out.old) (standing s) held.now) out.new result) × (result ≤ length out.old) }
{
    if out.len() < Explainer::MOST {
        return 0;
    }
    if s.is_open(held) {
        return s.hearer.explain(false, None, 0, out, 0).written;
    }
    0
}
