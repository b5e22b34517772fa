// The waiting list: identifiers in a fixed array, in sending order, the unused places 0. No Vec, since the repository uses no heap.
ghost use Rattle.std.specs.Prelude.{◌≡◌, take, set};
ghost use Rattle.book.specs.Waiting.{place_of, closed};

// Where an identifier stands among the first n. Any list and any n.
pub fn find(w: [u16; 8], n: usize, id: u16) -> Option<usize>
    ensures { result ≡ place_of id 0 (take n w) }
{
    w.iter().take(n).position(|x| id == *x)
}

// One place removed and the rest closed up.
pub fn without(w: [u16; 8], at: usize) -> [u16; 8]
    ensures { result ≡ closed w at }
{
    let mut v = w;
    if at < 8 {
        // Place by place, and no `copy_within`: that is a call of `memmove`, which a program in C would have to bring.
        for i in at..7 {
            v[i] = v[i + 1];
        }
        v[7] = 0;
    }
    v
}

// One identifier more, at the place n.
pub fn with_one(w: [u16; 8], n: usize, id: u16) -> [u16; 8]
    ensures { result ≡ set w n id }
{
    let mut v = w;
    if n < v.len() {
        v[n] = id;
    }
    v
}
