// Octets in a lent buffer: the one copy of as many as find room.
#![tactic(auto)]

ghost use Rattle.std.specs.Prelude.{◌≡◌};
ghost use Rattle.std.proofs.lemmas.List.Edits.{sets};

// Puts the octets of `src` into `out` from the place `at` on; every other octet stays. What finds no room is left out.
pub fn put(out: &mut [u8], at: usize, src: &[u8])
    ensures { out.new ≡ sets out.old at src.now }
{
    if at < out.len() {
        let n = src.len().min(out.len() - at);
        // By index, and no `copy_from_slice`: that is a call of `memmove`, which a program in C would have to bring.
        for i in 0..n {
            out[at + i] = src[i];
        }
    }
}
