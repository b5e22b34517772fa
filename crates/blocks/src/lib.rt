// What the programs share: an input read in blocks, of which a teller takes line after line and says what they print. What it leaves of a block, an
// open line, waits at the block's front for the next read.
#![tactic(auto)]

ghost use Rattle.std.specs.Prelude.{◌≡◌, ◌≤◌, ◌+◌, ◌-◌, ◌++◌, IsTrue, IfSome, MatchResult, List, ℕ, [], ⊤, take, drop, length};
ghost use Rattle.std.specs.Io.KnownBytes.{Consumes, Keeps};
ghost use Rattle.blocks.specs.Passing.{Chain, Passed};

use std::io;
use std::io::{Eprint, Print, Read};

// Standard output, until something cannot be written to it, and the program's name, for what is said on standard error.
#[derive(Drop)]
pub struct Page<'a, R> {
    rt: &'a R,
    name: &'a str,
    is_open: bool,
}

impl<'a, R: Print + Eprint> Page<'a, R> {
    // Says on standard error what went wrong. Where that can't be written either, nothing is left to say.
    fn complain(&self, what: &str) {
        let name = self.name;
        let _ = eprintln!(self.rt; "{name}: {what}");
    }

    // Writes octets to standard output, or says that it can't. A page on which something could not be written stays shut.
    pub fn say(&mut self, octets: &[u8])
        ensures { IsTrue self.new.is_open → IsTrue self.old.is_open }
    {
        if self.rt.write_all(octets).is_err() {
            self.complain("standard output cannot be written");
            self.is_open = false;
        }
    }
}

// What tells a program's input, a part of a block at a time. `out` is room for what is to be said.
pub trait Teller {
    // Whether a call may take a teller from one state to another over so many octets of the input.
    ghost takes: { Self → List ℕ → Self → Type 0 } = { λ _ _ _. ⊤ };

    // Takes lines from the front of a part, as many as it likes, and answers how many octets they are: none of an open line.
    fn tell<R: Print + Eprint>(
        &mut self,
        page: &mut Page<'_, R>,
        part: &[u8],
        out: &mut [u8],
    ) -> usize
        ensures within { result ≤ length part.now }
        ensures took { takes self.old (take result part.now) self.new };

    // The end of the input, of which `held` is left.
    fn finish<R: Print + Eprint>(&mut self, page: &mut Page<'_, R>, held: &[u8], out: &mut [u8])
        ensures { takes self.old [] self.new };

    // Whether no more of the input is to be told.
    fn is_done(&self) -> bool;
}

// Tells the lines of a block, until no more are taken or no more is to be said, and answers how many octets they are.
fn tell_all<T: Teller, R: Print + Eprint>(
    teller: &mut T,
    page: &mut Page<'_, R>,
    block: &[u8],
    out: &mut [u8],
) -> usize
    ensures within { result ≤ length block.now }
    ensures took { Chain T.takes teller.old (take result block.now) teller.new }
{
    let mut rest = block;
    // How far a turn goes is what the teller says, so no iterator is plainer.
    while !rest.is_empty() {
        let taken = teller.tell(page, rest, out);
        rest = &rest[taken..];
        if taken == 0 || !page.is_open || teller.is_done() {
            break;
        }
    }
    block.len() - rest.len()
}

// Reads on behind the octets that a block holds.
fn read_on<I: Read>(input: &mut I, block: &mut [u8], held: usize) -> io::Result<usize>
    requires { held ≤ length block.old }
    ensures { MatchResult result
        (λ n. (held + n ≤ length block.new) × ((read : List ℕ) × Consumes (I.remaining input.old) (I.remaining input.new) read
        × (take (held + n) block.new ≡ take held block.old ++ read)))
        (λ _. Keeps (I.remaining input.old) (I.remaining input.new)) }
{
    input.read(&mut block[held..])
}

// Moves what was read and not taken to the front of the block.
fn keep_rest(block: &mut [u8], from: usize, n: usize)
    requires from_le_n { from ≤ n }
    requires in_block { n ≤ length block.old }
    ensures { take (n - from) block.new ≡ drop from (take n block.old) }
{
    block.copy_within(from..n, 0);
}

// One read, and the lines that are whole now. `held` octets stand at the block's front: a buffer with a length beside it, since memory is fixed here and
// std's buffered reader allocates. Answers how many octets the block holds then, or None where that was all: the input has ended, or can't be
// read, or no more is to be said.
fn turn<T: Teller, I: Read, R: Print + Eprint>(
    teller: &mut T,
    input: &mut I,
    page: &mut Page<'_, R>,
    block: &mut [u8],
    held: usize,
    out: &mut [u8],
) -> Option<usize>
    requires { held ≤ length block.old }
    ensures { (left : List ℕ) × Passed T.takes teller.old (take held block.old) (I.remaining input.old) teller.new (I.remaining input.new) left
        × IfSome result (λ n. (n ≤ length block.new) × (left ≡ take n block.new)) }
{
    let Ok(n) = read_on(input, block, held) else {
        page.complain("standard input cannot be read");
        return None;
    };
    if n == 0 {
        teller.finish(page, &block[..held], out);
        return None;
    }
    let end = held + n;
    let taken = tell_all(teller, page, &block[..end], out);
    keep_rest(block, taken, end);
    (page.is_open && !teller.is_done()).then_some(end - taken)
}

// Tells an input, of which a block is read at a time. A proved loop has to end, and nothing says that an input does: the turns are counted up to a number
// that no run reaches.
pub fn run<T: Teller, I: Read, R: Print + Eprint>(
    rt: &R,
    name: &str,
    input: &mut I,
    teller: &mut T,
    block: &mut [u8],
    out: &mut [u8],
)
    ensures { (held : List ℕ) × Passed T.takes teller.old [] (I.remaining input.old) teller.new (I.remaining input.new) held }
{
    let mut page = Page {
        rt,
        name,
        is_open: true,
    };
    let mut held = 0;
    for _ in 0..u64::MAX {
        let Some(n) = turn(teller, input, &mut page, block, held, out) else {
            return;
        };
        held = n;
    }
}
