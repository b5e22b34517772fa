// The moves of a unit that is held by value.
use crate::held::{Held, NO_TERMS};
use book::{Terms, Unit};
use state::{sound, waiting};

// A unit with every number 0.
pub const BLANK: Unit = Unit {
    name: [0; 32],
    waiting: [0; 8],
    kept: [0; 554],
    state: 0,
    start: 0,
    end: 0,
    inactivity: 0,
    elapsed: 0,
    terms: NO_TERMS,
    letters: 0,
    count: 0,
    octets: 0,
};

#[tactic(auto, unfolding(turn_laws::specs::Moves::advanced, turn_laws::specs::Moves::entered, turn_laws::specs::Moves::cleared, turn_laws::specs::Moves::waiting_with))]
impl Held for Unit {
    fn is_sound(&self) -> bool {
        sound::sound(self)
    }

    fn limit(&self) -> u16 {
        sound::limit_of(self)
    }

    fn find(&self, id: u16) -> Option<usize> {
        waiting::find(self.waiting, self.count, id)
    }

    fn make(&mut self, start: u16, end: u16, inactivity: u16, name: [u8; 32], letters: usize) {
        *self = Unit {
            name,
            start,
            end,
            inactivity,
            letters,
            ..BLANK
        };
    }

    fn at_elapsed(&mut self, state: u8, elapsed: u16) {
        self.state = state;
        self.elapsed = elapsed;
    }

    fn enter(&mut self, state: u8, terms: Terms) {
        self.kept = [0; 554];
        self.state = state;
        self.elapsed = 0;
        self.terms = terms;
        self.octets = 0;
    }

    fn to_idle(&mut self) {
        self.enter(0, NO_TERMS);
        self.waiting = [0; 8];
        self.count = 0;
    }

    fn keep(&mut self, frame: &[u8]) {
        octets::put(&mut self.kept, 0, frame);
        self.octets = frame.len();
    }

    fn append(&mut self, id: u16) {
        self.waiting = waiting::with_one(self.waiting, self.count, id);
        self.count += 1;
    }

    fn remove(&mut self, place: usize) {
        self.waiting = waiting::without(self.waiting, place);
        self.count -= 1;
    }
}
