// Matrices with rows of one word, for 64 items or fewer: the way of a need entered into the rows that it changes.
ghost use Rattle.std.specs.Prelude.{ℕ, ◌<◌, length};
ghost use Rattle.std.specs.Iterator.{at_most};
ghost use Rattle.lists.specs.Bits.{bit};
ghost use Rattle.graph.specs.Rows.{RowJoined};
ghost use Rattle.graph.specs.Reach.{AddRoom, WayEntered, Transposed};
ghost use Rattle.graph.specs.Words.{Taken, SetRoom, SetJoined};

// The numbers that a set has left. Nothing relies on the least coming first.
#[derive(Clone, Copy)]
struct Numbers(u64);

impl Iterator for Numbers {
    type Item = usize;

    ghost next_gives = { λ s r t. Taken s.0 r t.0 };

    ghost remaining = { λ s. at_most s.0 };

    fn next(&mut self) -> Option<usize> {
        if self.0 == 0 {
            return None;
        }
        let i = u64::trailing_zeros(self.0) as usize;
        self.0 &= !(1u64 << i);
        Some(i)
    }
}

// Joins row a of a matrix with a word.
fn join_word(matrix: &mut [u64], a: usize, word: u64)
    requires { a < length matrix.old }
    ensures { RowJoined 1 a (bit word) matrix.old matrix.new }
{
    matrix[a] |= word;
}

// Joins each row that a set holds with a word.
fn join_set(matrix: &mut [u64], set: u64, word: u64)
    requires { SetRoom set matrix.old }
    ensures { SetJoined (bit set) (bit word) matrix.old matrix.new }
{
    for a in Numbers(set) {
        join_word(matrix, a, word);
    }
}

// Enters the way from x to y into the matrices: it starts at x and at what reaches x, and leads to y and on to what y reaches.
pub fn enter_words(paths: &mut [u64], reach: &mut [u64], into: &mut [u64], x: usize, y: usize)
    requires { (n : ℕ) × AddRoom 1 n x y reach.old into.old paths.old }
    ensures { (n : ℕ) → AddRoom 1 n x y reach.old into.old paths.old
        → WayEntered 1 n x y reach.old paths.old reach.new paths.new
        × Transposed n reach.new into.new }
{
    let first = 1u64 << x;
    let last = 1u64 << y;
    let before = into[x] | first;
    let beyond = reach[y] | last;
    join_set(reach, before, beyond);
    join_set(into, beyond, before);
    join_set(paths, before & !last, last);
    join_word(paths, x, beyond & !first | last);
}
