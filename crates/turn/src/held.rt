// A unit that can be moved, whatever it is held as: each move changes it where it is lent. That it is ready stays a clause of the moves and of the events'
// functions: an event moves a unit by steps between which it isn't, so a type that says so would be taken apart at each, which is no plainer.
ghost use Rattle.std.specs.Prelude.{◌≡◌, ◌≤◌, ◌<◌, length, replicate, take};
ghost use Rattle.std.specs.Bool.{OnTrue};
ghost use Rattle.book.specs.Ready.{Ready};
ghost use Rattle.book.specs.Sound.{sound_of, limit_of};
ghost use Rattle.book.specs.Waiting.{place_of};
ghost use Rattle.turn_laws.specs.Moves.{made, advanced, entered, cleared, keeping, appended, removed};
ghost use Rattle.turn.specs.Acts.{NoneBehind};

use book::Terms;
use image::seen::Seen;

// The terms of a unit in Idle.
pub(crate) const NO_TERMS: Terms = Terms {
    class: 0,
    priority: 0,
    rer: 0,
};

// A state is its number here, and no enum: a unit that is handed in may hold any number there, and the same octet stands in its image.
pub trait Held: Seen {
    // Whether it is sound.
    fn is_sound(&self) -> bool
        ensures value { result ≡ sound_of (Self.unit self.now) }
        ensures ready { OnTrue result (Ready (Self.unit self.now)) };

    // The limit of the state that it is in.
    fn limit(&self) -> u16
        ensures { result ≡ limit_of (Self.unit self.now) };

    // Where an identifier waits.
    fn find(&self, id: u16) -> Option<usize>
        requires { Ready (Self.unit self.now) }
        ensures { result ≡ place_of id 0 (take (Self.unit self.now).count (Self.unit self.now).waiting) };

    // A new unit in Idle, in place of the one that was held: its limits in ticks, its name, and how many letters of it count.
    fn make(&mut self, start: u16, end: u16, inactivity: u16, name: [u8; 32], letters: usize)
        requires { letters ≤ 32 }
        ensures { Self.unit self.new ≡ made start end inactivity name letters };

    // The same dialogue, in another state or at another tick.
    fn at_elapsed(&mut self, state: u8, elapsed: u16)
        ensures { Self.unit self.new ≡ advanced (Self.unit self.old) state elapsed };

    // A new state with its terms.
    fn enter(&mut self, state: u8, terms: Terms)
        requires { Ready (Self.unit self.old) }
        ensures { Self.unit self.new ≡ entered (Self.unit self.old) state terms };

    // Back in Idle: the setup stays, all else is 0.
    fn to_idle(&mut self)
        requires { Ready (Self.unit self.old) }
        ensures { Self.unit self.new ≡ cleared (Self.unit self.old) };

    // The frame kept in Start-multi.
    fn keep(&mut self, frame: &[u8])
        requires blank { (Self.unit self.old).kept ≡ replicate 554 0 }
        requires short { length frame.now ≤ 554 }
        ensures { Self.unit self.new ≡ keeping (Self.unit self.old) frame.now };

    // One identifier more, at the end of the waiting list.
    fn append(&mut self, id: u16)
        requires { (Self.unit self.old).count < 8 }
        ensures { Self.unit self.new ≡ appended (Self.unit self.old) id };

    // The identifier at a place is answered: those behind it are closed up.
    fn remove(&mut self, place: usize)
        requires waits { place < (Self.unit self.old).count }
        requires few { (Self.unit self.old).count ≤ 8 }
        requires none_behind { NoneBehind (Self.unit self.old) }
        ensures { Self.unit self.new ≡ removed (Self.unit self.old) place };
}
