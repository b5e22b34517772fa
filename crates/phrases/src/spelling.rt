// A page, and the words, numbers and octets that are written on it.
ghost use Rattle.std.specs.Prelude.{◌≡◌, ◌≤◌, ◌<◌, ◌+◌, length};
ghost use Rattle.std.specs.List.{list_all};
ghost use Rattle.phrases.specs.Page.{Room, Writes};
ghost use Rattle.phrases.specs.Spelling.{digit, digit_at, decimal, printable, shown, beginning};

// A lent buffer, and the place up to which it is written.
#[derive(Drop)]
pub struct Page<'a> {
    pub out: &'a mut [u8],
    pub at: usize,
}

impl Page<'_> {
    // The octets of a word. Here the room is known, and no archive for C is made of it, so it is a slice's own copy: `octets::put`, which asks for the room and
    // goes octet by octet, costs a line an eighth to a half more instructions.
    pub fn say(&mut self, word: &[u8])
        requires { Room self.old (length word.now) }
        ensures { Writes self.old word.now (length word.now) self.new }
    {
        self.out[self.at..self.at + word.len()].copy_from_slice(word);
        self.at += word.len();
    }

    // The digit of a power of ten, where the number has it.
    fn digit(&mut self, n: usize, power: usize)
        requires power { 0 < power }
        requires room { Room self.old 1 }
        ensures { Writes self.old (digit_at n power) 1 self.new }
    {
        if power <= n {
            self.say(&[last_digit(n / power)]);
        }
    }

    // A number in decimal.
    pub fn number(&mut self, n: usize)
        requires { Room self.old 5 }
        ensures { Writes self.old (decimal n) 5 self.new }
    {
        self.digit(n, 10_000);
        self.digit(n, 1_000);
        self.digit(n, 100);
        self.digit(n, 10);
        self.say(&[last_digit(n)]);
    }

    // Octets as text in quotes where each is printable, else in hexadecimal.
    fn shown(&mut self, s: &[u8])
        requires { (length s.now ≤ 32) × Room self.old 72 }
        ensures { Writes self.old (shown s.now) 71 self.new }
    {
        if all_printable(s) {
            self.say(b"\"");
            self.say(s);
            self.say(b"\"");
        } else {
            self.say(b"octets ");
            self.at = text::put_digits(self.out, self.at, s);
        }
    }

    // The beginning of octets, and a sign where there are more.
    pub fn beginning(&mut self, s: &[u8])
        requires { Room self.old 76 }
        ensures { Writes self.old (beginning s.now) 75 self.new }
    {
        self.shown(&s[..s.len().min(32)]);
        if 32 < s.len() {
            self.say(b" ...");
        }
    }
}

// The last decimal digit of a number.
fn last_digit(n: usize) -> u8
    ensures { result ≡ digit n }
{
    b'0' + (n % 10) as u8
}

// Whether a character is shown as it is.
#[tactic(auto, unfolding(crate::specs::Spelling::printable))]
fn is_printable(c: u8) -> bool
    ensures { result ≡ printable c }
{
    matches!(c, b' '..=b'~') && !matches!(c, b'"' | b'\\')
}

fn all_printable(s: &[u8]) -> bool
    ensures { result ≡ list_all printable s.now }
{
    s.iter().all(|c| is_printable(*c))
}
