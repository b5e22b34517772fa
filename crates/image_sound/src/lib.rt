// Whether a block is the image of a sound unit: every test reads the image where it stands.
#![tactic(auto)]

ghost use Rattle.std.specs.Prelude.{◌≡◌, eqb, length};
ghost use Rattle.std.specs.Bool.{OnTrue};
ghost use Rattle.octets.specs.Choice as Choice;
ghost use Rattle.book.specs.Ready.{Ready};
ghost use Rattle.book.specs.Sound.{sound_of};
ghost use Rattle.image.specs.Image.{unit_of};

// Whether a block is the image of a sound unit; such a unit is ready for an event.
pub fn sound(u: &[u8]) -> bool
    ensures value { result ≡ Choice.both (eqb (length u.now) 618) (sound_of (unit_of u.now)) }
    ensures ready { OnTrue result (Ready (unit_of u.now)) }
{
    u.as_array::<618>()
        .is_some_and(|image| state::sound::sound(image))
}
