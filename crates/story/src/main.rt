// `story`: a listing's input on standard input; on standard output each line in plain words, and under it, two spaces in, what the unit answers. The
// words are the work of `words`, the answers of `session`, the reads and the writes of `blocks`; here are the turns of the two.
#![tactic(auto)]

ghost use Rattle.std.specs.Prelude.{◌≤◌, IfSome, length};
ghost use Rattle.story.specs.Taking.{Takes};

use blocks::{Page, Teller};
use session::{Phase, Session};
use std::io::{Eprint, Print};
use words::Reader;

// A session with its unit's image and room for what it says, and the reader of its input.
#[derive(Drop)]
struct Story {
    session: Session,
    unit: [u8; 618],
    said: [u8; 4096],
    reader: Reader,
}

impl Story {
    // The first n characters of what the session said, in words.
    fn answer<R: Print + Eprint>(&self, page: &mut Page<'_, R>, n: usize, out: &mut [u8])
        requires { n ≤ 4096 }
    {
        let fed = words::feed(words::fresh(true), &self.said[..n], out);
        page.say(&out[..fed.written]);
    }
}

// The place after the first line, or the end of one that is too long anyhow; None where it has no line feed yet.
fn line_end(part: &[u8]) -> Option<usize>
    ensures { IfSome result (λ end. end ≤ length part.now) }
{
    match part.iter().position(|c| *c == b'\n') {
        Some(feed) => Some(feed + 1),
        None if part.len() > 5000 => Some(part.len()),
        None => None,
    }
}

impl Teller for Story {
    ghost takes = { Takes };

    // One line, and what the session answers. The buffers have room for what any line prints.
    fn tell<R: Print + Eprint>(
        &mut self,
        page: &mut Page<'_, R>,
        part: &[u8],
        out: &mut [u8],
    ) -> usize {
        let Some(end) = line_end(part) else {
            return 0;
        };
        let line = &part[..end];
        let fed = words::feed(self.reader, line, out);
        self.reader = fed.state;
        page.say(&out[..fed.written]);
        let answer = session::feed(self.session, &mut self.unit, line, &mut self.said);
        self.session = answer.state;
        self.answer(page, answer.written, out);
        end
    }

    fn finish<R: Print + Eprint>(&mut self, page: &mut Page<'_, R>, held: &[u8], out: &mut [u8]) {
        let n = words::finish(self.reader, held, out);
        page.say(&out[..n]);
        let n = session::finish(self.session, &self.unit, held, &mut self.said);
        self.answer(page, n, out);
    }

    fn is_done(&self) -> bool {
        self.session.hearer == Phase::Stopped
    }
}

fn main(rt: HostRuntime) {
    let mut block = [0u8; 65536];
    let mut out = [0u8; 65536];
    let mut input = rt.stdin();
    let mut story = Story {
        session: session::fresh(),
        unit: [0; 618],
        said: [0; 4096],
        reader: words::fresh(false),
    };
    blocks::run(&rt, "story", &mut input, &mut story, &mut block, &mut out);
}
