// The listing program: standard input to standard output, in blocks of 65,536 octets. What is printed is the work of `session`, the reads and the writes
// are those of `blocks`; here is the image of the unit, which is lent to the session.
#![tactic(auto)]

ghost use Rattle.listing.specs.Taking.{Takes};

use blocks::{Page, Teller};
use session::{Phase, Session};
use std::io::{Eprint, Print};

#[derive(Drop)]
struct Listing {
    session: Session,
    unit: [u8; 618],
}

impl Teller for Listing {
    ghost takes = { Takes };

    fn tell<R: Print + Eprint>(
        &mut self,
        page: &mut Page<'_, R>,
        part: &[u8],
        out: &mut [u8],
    ) -> usize {
        let fed = session::feed(self.session, &mut self.unit, part, out);
        self.session = fed.state;
        page.say(&out[..fed.written]);
        fed.taken
    }

    fn finish<R: Print + Eprint>(&mut self, page: &mut Page<'_, R>, held: &[u8], out: &mut [u8]) {
        let n = session::finish(self.session, &self.unit, held, out);
        page.say(&out[..n]);
    }

    fn is_done(&self) -> bool {
        self.session.hearer == Phase::Stopped
    }
}

fn main(rt: HostRuntime) {
    let mut block = [0u8; 65536];
    let mut out = [0u8; 65536];
    let mut input = rt.stdin();
    let mut listing = Listing {
        session: session::fresh(),
        unit: [0; 618],
    };
    blocks::run(
        &rt,
        "listing",
        &mut input,
        &mut listing,
        &mut block,
        &mut out,
    );
}
