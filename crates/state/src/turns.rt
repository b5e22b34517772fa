// The turn table: which events each state takes.
ghost use Rattle.std.specs.Prelude.{◌≡◌};
ghost use Rattle.book.specs.Turns.{takes};

// A row for each state; the columns: a single-shot request, a multi-shot one, 03, 04, 10, 11, 12, 13, 14, 15, 16. Numbers and not bools: that the table
// is five rows of numbers is a rule of the project.
const TURNS: [[u8; 11]; 5] = [
    [1, 1, 0, 1, 1, 0, 0, 0, 0, 0, 0],
    [0, 0, 0, 1, 0, 1, 0, 0, 0, 1, 1],
    [0, 0, 0, 1, 0, 1, 0, 0, 0, 1, 1],
    [0, 0, 0, 1, 0, 0, 1, 0, 1, 1, 1],
    [0, 1, 1, 1, 0, 0, 1, 1, 0, 1, 1],
];

#[tactic(auto, unfolding(book::specs::Turns::takes))]
pub fn taken(state: usize, column: usize) -> bool
    ensures { result ≡ takes state column }
{
    state < 5 && column < 11 && TURNS[state][column] == 1
}
