// Lines heard one after the other, in parts of any length: what is the same for all who hear them.
ghost use Rattle.std.specs.Prelude.{◌≡◌, ◌≤◌, ◌+◌, ◌-◌, true, false, ltb, length, Option, List, ℕ, Some, None};
ghost use Rattle.octets.specs.Choice.{either};
ghost use Rattle.text.specs.Hearing.{Answer, Heard, Hears, Takes, Feeds, standing, left_at, line_taken, feeding};

// A reader: who hears the lines, and whether a line that is too long is being passed over.
#[derive(Clone, Copy)]
pub struct Reader<H> {
    pub hearer: H,
    pub passing: bool,
}

impl<H> Reader<H> {
    // Whether the end of the input leaves a line without its line feed, where `held` is what was not taken.
    pub fn is_open(&self, held: &[u8]) -> bool
        ensures { result ≡ either self.now.passing (ltb 0 (length held.now)) }
    {
        self.passing || !held.is_empty()
    }
}

// What a part of the input left: who reads on, how many characters were taken, and the place after what was written.
#[derive(Clone, Copy)]
pub struct Fed<S> {
    pub state: S,
    pub taken: usize,
    pub written: usize,
}

// Who hears the lines: what is kept from one line to the next.
pub trait Hearer: Copy {
    // What the caller lends with it, and what it hears changes.
    type Unit;
    // Room to work in; what it holds says nothing.
    type Desk;

    // The characters of the longest line.
    const LONGEST: usize;

    ghost LONGEST: { ℕ };

    // The octets that one line of the input may print.
    const MOST: usize;

    ghost MOST: { ℕ };

    ghost State: { Type 0 };

    // What it stands for, with what is lent.
    ghost state: { Self → Self.Unit → State };

    // What a line leaves and prints; `None` is a line that was too long.
    ghost answer: { State → Option (List ℕ) → Answer State };

    // The line at the front of the input, where it has its line feed. The output and the place up to which it is written come apart, and the place goes
    // back in `Fed`, as from `feed`: on a page (crate phrases) it would stand twice, which is no plainer.
    fn hear(
        self,
        unit: &mut Self::Unit,
        desk: &mut Self::Desk,
        input: &[u8],
        out: &mut [u8],
        at: usize,
    ) -> Option<Fed<Self>>
        requires { at + MOST ≤ length out.old }
        ensures { Hears state answer MOST self unit.old input.now out.old at unit.new out.new result };

    // A line that was too long: the next one starts at `next`.
    fn refuse(self, unit: &mut Self::Unit, next: usize, out: &mut [u8], at: usize) -> Fed<Self>
        requires { at + MOST ≤ length out.old }
        ensures { Heard state (answer (state self unit.old) None) next MOST out.old at unit.new out.new result };
}

// After a line, the next one is read from its front on.
fn on<H: Hearer>(fed: Fed<H>) -> Fed<Reader<H>>
    ensures { result ≡ record { state = record { hearer = fed.state; passing = false }; taken = fed.taken; written = fed.written } }
{
    Fed {
        state: Reader {
            hearer: fed.state,
            passing: false,
        },
        taken: fed.taken,
        written: fed.written,
    }
}

// No line feed yet: what is longer than a line may be is passed over, all else left for later.
fn not_ended<H: Hearer>(s: Reader<H>, input: &[u8], at: usize) -> Fed<Reader<H>>
    ensures { result ≡ left_at H.LONGEST s (length input.now) at }
{
    if s.passing || H::LONGEST < input.len() {
        return Fed {
            state: Reader { passing: true, ..s },
            taken: input.len(),
            written: at,
        };
    }
    Fed {
        state: s,
        taken: 0,
        written: at,
    }
}

// The end of a line that is passed over.
fn pass<H: Hearer>(
    s: Reader<H>,
    unit: &mut H::Unit,
    input: &[u8],
    out: &mut [u8],
    at: usize,
) -> Fed<Reader<H>>
    requires passing { true ≡ s.passing }
    requires room { at + H.MOST ≤ length out.old }
    ensures { Takes H.state (line_taken H.LONGEST H.answer (standing H.state s unit.old) input.now) H.MOST out.old at unit.new out.new result }
{
    let end = crate::line_feed(input, 0);
    if end < input.len() {
        return on(s.hearer.refuse(unit, end + 1, out, at));
    }
    not_ended(s, input, at)
}

// The line at the front of the input.
fn line<H: Hearer>(
    s: Reader<H>,
    unit: &mut H::Unit,
    desk: &mut H::Desk,
    input: &[u8],
    out: &mut [u8],
    at: usize,
) -> Fed<Reader<H>>
    requires { at + H.MOST ≤ length out.old }
    ensures { Takes H.state (line_taken H.LONGEST H.answer (standing H.state s unit.old) input.now) H.MOST out.old at unit.new out.new result }
{
    if s.passing {
        return pass(s, unit, input, out, at);
    }
    match s.hearer.hear(unit, desk, input, out, at) {
        Some(fed) => on(fed),
        None => not_ended(s, input, at),
    }
}

// One line after the other, until there is no room for one more, or the next one is open. What is left of the input is an open line, or waits for room.
pub fn feed<H: Hearer>(
    s: Reader<H>,
    unit: &mut H::Unit,
    desk: &mut H::Desk,
    input: &[u8],
    out: &mut [u8],
) -> Fed<Reader<H>>
    ensures { Feeds H.state (feeding H.LONGEST H.MOST H.answer (length input.now) (length out.old) (standing H.state s unit.old) input.now) input.now out.old unit.new out.new result }
{
    let mut fed = Fed {
        state: s,
        taken: 0,
        written: 0,
    };
    // Each turn takes a character or more, so these turns are enough; how far one goes is what its line says.
    for _ in 0..input.len() {
        if out.len() - fed.written < H::MOST {
            return fed;
        }
        let next = line(fed.state, unit, desk, &input[fed.taken..], out, fed.written);
        fed = Fed {
            taken: fed.taken + next.taken,
            ..next
        };
        if next.taken == 0 {
            return fed;
        }
    }
    fed
}
