// The moves of a unit in its image: no unit is copied.
ghost use Rattle.std.specs.Prelude.{◌≡◌, []};
ghost use Rattle.book.specs.Ready.{Ready};
ghost use Rattle.image.specs.Image.{unit_of, rest_octets};
ghost use Rattle.image.specs.Fields.{forgotten};
ghost use Rattle.turn_laws.specs.Moves.{made};

use crate::held::{Held, NO_TERMS};
use crate::stores;
use book::Terms;
use image::seen::Seen;

// The kept frame goes: of its octets only those that are in use are cleared.
fn forget(image: &mut [u8; 618])
    requires { Ready (unit_of image.old) }
    ensures { unit_of image.new ≡ forgotten (unit_of image.old) }
{
    let n = image.octets();
    stores::clear_kept(image, n);
    stores::set_octets(image, 0);
}

// The state and what stands behind it in an image, for a unit in Idle. Crate by_value writes the same of any unit; here none is built to be written.
fn rest_of(start: u16, end: u16, inactivity: u16, letters: u8) -> [u8; 16]
    ensures { result ≡ rest_octets (made start end inactivity [] letters) }
{
    let [start_high, start_low] = start.to_be_bytes();
    let [end_high, end_low] = end.to_be_bytes();
    let [inactivity_high, inactivity_low] = inactivity.to_be_bytes();
    [
        0,
        start_high,
        start_low,
        end_high,
        end_low,
        inactivity_high,
        inactivity_low,
        0,
        0,
        0,
        0,
        0,
        letters,
        0,
        0,
        0,
    ]
}

impl Held for [u8; 618] {
    fn is_sound(&self) -> bool {
        image_sound::sound(self)
    }

    fn limit(&self) -> u16 {
        image::limit(self)
    }

    fn find(&self, id: u16) -> Option<usize> {
        (0..self.count()).position(|i| id == self.id(i))
    }

    fn make(&mut self, start: u16, end: u16, inactivity: u16, name: [u8; 32], letters: usize) {
        let rest = rest_of(start, end, inactivity, letters as u8);
        octets::put(self, 0, &name);
        self[32..48].fill(0);
        self[48..602].fill(0);
        octets::put(self, 602, &rest);
    }

    fn at_elapsed(&mut self, state: u8, elapsed: u16) {
        stores::set_state(self, state);
        stores::set_elapsed(self, elapsed);
    }

    fn enter(&mut self, state: u8, terms: Terms) {
        forget(self);
        self.at_elapsed(state, 0);
        stores::set_terms(self, terms);
    }

    fn to_idle(&mut self) {
        self.enter(0, NO_TERMS);
        stores::clear_ids(self);
        stores::set_count(self, 0);
    }

    fn keep(&mut self, frame: &[u8]) {
        stores::put_kept(self, frame);
        stores::set_octets(self, frame.len());
    }

    fn append(&mut self, id: u16) {
        let count = self.count();
        stores::set_id(self, count, id);
        stores::set_count(self, count + 1);
    }

    fn remove(&mut self, place: usize) {
        let last = self.count() - 1;
        // Place by place, and no `copy_within` of octets: the laws of stores are of identifiers.
        for i in place..last {
            let id = self.id(i + 1);
            stores::set_id(self, i, id);
        }
        stores::set_id(self, last, 0);
        stores::set_count(self, last);
    }
}
