// Bit matrices: rows of `words` words, one behind the other. A row is a set of numbers.
ghost use Rattle.std.specs.Prelude.{◌+◌, ◌*◌, ◌≤◌, ◌≡◌, ◌++◌, length, take, drop};
ghost use Rattle.lists.specs.Bits.{bit_at, Inserted, Removed};
ghost use Rattle.graph.specs.Rows.{Place, cleared, cell, words_for, RowJoined};

use lists::bits;

// The most words of a row: a bit for each item that there can be.
pub const ROW_WORDS: usize = 4;

// How many words a row has for so many items.
pub(crate) fn words_of(nodes: usize) -> usize
    requires { nodes ≤ 65536 }
    ensures { result ≡ words_for nodes }
{
    nodes.div_ceil(64)
}

// The rows stand in front; `cells` has room for the largest matrix that it is to hold.
#[derive(Drop)]
pub struct Matrix<const WORDS: usize> {
    pub words: usize,
    pub cells: [u64; WORDS],
    pub ghost size: { length cells ≡ WORDS },
}

impl<const WORDS: usize> Matrix<WORDS> {
    // No rows.
    pub fn new() -> Self
        requires { WORDS ≤ 65536 }
        ensures { result.words ≡ 0 }
    {
        Self {
            words: 0,
            cells: [0; WORDS],
        }
    }

    // Clears so many rows of so many words.
    pub fn clear(&mut self, nodes: usize, words: usize)
        requires { nodes * words ≤ WORDS }
        ensures words { self.new.words ≡ words }
        ensures cells { self.new.cells ≡ cleared (nodes * words) self.old.cells }
    {
        self.words = words;
        self.cells[..nodes * words].fill(0);
    }

    // Whether row a holds b.
    pub fn holds(&self, a: usize, b: usize) -> bool
        requires { Place self.now.words a b self.now.cells }
        ensures { result ≡ cell self.now.words self.now.cells a b }
    {
        bits::has(self.cells[a * self.words + b / 64], (b % 64) as u8)
    }

    // Copies row a to the front of `row`.
    pub fn copy_row(&self, a: usize, row: &mut [u64])
        requires words_in_bounds { a * self.now.words + self.now.words ≤ length self.now.cells }
        requires words_in_bounds_2 { self.now.words ≤ length row.old }
        ensures { row.new ≡ take self.now.words (drop (a * self.now.words) self.now.cells) ++ drop self.now.words row.old }
    {
        let words = self.words;
        let cells = &self.cells[..];
        row[..words].copy_from_slice(&cells[a * words..a * words + words]);
    }

    // Joins row a with `row`.
    pub fn join_row(&mut self, a: usize, row: &[u64])
        requires words_in_bounds { a * self.old.words + self.old.words ≤ length self.old.cells }
        requires words_in_bounds_2 { self.old.words ≤ length row.now }
        ensures words { self.new.words ≡ self.old.words }
        ensures joined { RowJoined self.old.words a (bit_at row.now) self.old.cells self.new.cells }
    {
        let start = a * self.words;
        for (i, &word) in row[..self.words].iter().enumerate() {
            self.cells[start + i] |= word;
        }
    }

    // Puts b into row a.
    pub fn insert(&mut self, a: usize, b: usize)
        requires { Place self.old.words a b self.old.cells }
        ensures words { self.new.words ≡ self.old.words }
        ensures inserted { Inserted (a * (64 * self.old.words) + b) self.old.cells self.new.cells }
    {
        self.cells[a * self.words + b / 64] |= 1u64 << b % 64;
    }

    // Takes b out of row a.
    pub fn remove(&mut self, a: usize, b: usize)
        requires { Place self.old.words a b self.old.cells }
        ensures words { self.new.words ≡ self.old.words }
        ensures removed { Removed (a * (64 * self.old.words) + b) self.old.cells self.new.cells }
    {
        self.cells[a * self.words + b / 64] &= !(1u64 << b % 64);
    }
}
