// `explain`: lines of a listing on standard input, each in plain words on standard output, in blocks of 65,536 octets. What is printed is the work of
// `words`, the reads and the writes are those of `blocks`.
#![tactic(auto)]

ghost use Rattle.explain.specs.Taking.{Takes};

use blocks::{Page, Teller};
use std::io::{Eprint, Print};
use words::Reader;

#[derive(Drop)]
struct Explain {
    reader: Reader,
}

impl Teller for Explain {
    ghost takes = { Takes };

    fn tell<R: Print + Eprint>(
        &mut self,
        page: &mut Page<'_, R>,
        part: &[u8],
        out: &mut [u8],
    ) -> usize {
        let fed = words::feed(self.reader, part, out);
        self.reader = fed.state;
        page.say(&out[..fed.written]);
        fed.taken
    }

    fn finish<R: Print + Eprint>(&mut self, page: &mut Page<'_, R>, held: &[u8], out: &mut [u8]) {
        let n = words::finish(self.reader, held, out);
        page.say(&out[..n]);
    }

    // Each line has its words, up to the end of the input.
    fn is_done(&self) -> bool {
        false
    }
}

fn main(rt: HostRuntime) {
    let mut block = [0u8; 65536];
    let mut out = [0u8; 65536];
    let mut input = rt.stdin();
    let mut explain = Explain {
        reader: words::fresh(false),
    };
    blocks::run(
        &rt,
        "explain",
        &mut input,
        &mut explain,
        &mut block,
        &mut out,
    );
}
