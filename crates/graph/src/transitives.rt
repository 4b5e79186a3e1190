// What each item reaches, and the record of paths (insert_transitives), as bit matrices with a row for each of n items.
// The matrices are lent one by one: most functions work on one or two of them, and a struct would lend each of them all three.
ghost use Rattle.std.specs.Prelude.{◌+◌, ◌*◌, ◌≤◌, ◌<◌, ◌≡◌, not, ◌&&◌, ◌||◌, eqb, length};
ghost use Rattle.lists.specs.Bits.{bit_at};
ghost use Rattle.graph.specs.Rows.{Place, cell, RowJoined};
ghost use Rattle.graph.specs.Reach.{OwnRoom, RowRoom, RowEntered, RowsEntered, WayRoom, WayEntered, AddRoom, WayAdded};

use super::rows::{self, Matrix};
use super::word;
use lists::bits;

// Enters y into the record's row of a, where a is another item.
fn enter_other<const WORDS: usize>(paths: &mut Matrix<WORDS>, a: usize, y: usize)
    requires place { Place paths.old.words a y paths.old.cells }
    requires y_bound { y < 64 * paths.old.words }
    ensures words { paths.new.words ≡ paths.old.words }
    ensures joined { RowJoined paths.old.words a (λ b. eqb b y && not (eqb a y)) paths.old.cells paths.new.cells }
{
    if a != y {
        paths.insert(a, y);
    }
}

// Where a reaches x: joins what a reaches with `row`, and enters y into the record's row of a, where a is another item.
fn enter_if_reaches<const WORDS: usize>(
    paths: &mut Matrix<WORDS>,
    reach: &mut Matrix<WORDS>,
    a: usize,
    x: usize,
    y: usize,
    row: &[u64],
)
    requires same { paths.old.words ≡ reach.old.words }
    requires room { RowRoom reach.old.words a x y row.now reach.old.cells paths.old.cells }
    ensures words { (paths.new.words ≡ paths.old.words) × (reach.new.words ≡ reach.old.words) }
    ensures entered { RowEntered reach.old.words a x y (bit_at row.now) reach.old.cells paths.old.cells reach.new.cells paths.new.cells }
{
    if reach.holds(a, x) {
        reach.join_row(a, row);
        enter_other(paths, a, y);
    }
}

// The same for each of n items.
fn enter_reaching<const WORDS: usize>(
    paths: &mut Matrix<WORDS>,
    reach: &mut Matrix<WORDS>,
    n: usize,
    x: usize,
    y: usize,
    row: &[u64],
)
    requires same { paths.old.words ≡ reach.old.words }
    requires way_room { WayRoom reach.old.words n x y reach.old.cells paths.old.cells }
    requires words_in_bounds { reach.old.words ≤ length row.now }
    ensures words { (paths.new.words ≡ paths.old.words) × (reach.new.words ≡ reach.old.words) }
    ensures entered { RowsEntered reach.old.words n x y (bit_at row.now) reach.old.cells paths.old.cells reach.new.cells paths.new.cells }
{
    for a in 0..n {
        enter_if_reaches(paths, reach, a, x, y, row);
    }
}

// Enters y and what `row` holds except x into the record's row of x.
fn enter_own<const WORDS: usize>(paths: &mut Matrix<WORDS>, x: usize, y: usize, row: &mut [u64])
    requires { OwnRoom paths.old.words x y row.old paths.old.cells }
    ensures words { paths.new.words ≡ paths.old.words }
    ensures joined { RowJoined paths.old.words x (λ b. eqb b y || (not (eqb b x) && bit_at row.old b)) paths.old.cells paths.new.cells }
{
    bits::row_remove(row, x);
    bits::row_insert(row, y);
    paths.join_row(x, row);
}

// Enters the way from x to y into both matrices: it starts at x and at each item that reaches it, and leads to y and on to what y reaches.
fn enter_rows<const WORDS: usize>(
    paths: &mut Matrix<WORDS>,
    reach: &mut Matrix<WORDS>,
    n: usize,
    x: usize,
    y: usize,
)
    requires same { paths.old.words ≡ reach.old.words }
    requires room { WayRoom reach.old.words n x y reach.old.cells paths.old.cells }
    ensures words { (paths.new.words ≡ paths.old.words) × (reach.new.words ≡ reach.old.words) }
    ensures entered { WayEntered reach.old.words n x y reach.old.cells paths.old.cells reach.new.cells paths.new.cells }
{
    let mut row = [0u64; rows::ROW_WORDS];
    reach.copy_row(y, &mut row);
    bits::row_insert(&mut row, y);
    enter_reaching(paths, reach, n, x, y, &row);
    reach.join_row(x, &row);
    enter_own(paths, x, y, &mut row);
}

// Adds the need x to y to what each item reaches and to the record of paths. Where P(x) holds y, x reaches it, and there is no more to add.
// Where rows have one word, `into` has what reaches each item; else it is left alone.
pub fn insert_transitives<const WORDS: usize>(
    paths: &mut Matrix<WORDS>,
    reach: &mut Matrix<WORDS>,
    into: &mut [u64],
    n: usize,
    x: usize,
    y: usize,
)
    requires same { paths.old.words ≡ reach.old.words }
    requires room { AddRoom reach.old.words n x y reach.old.cells into.old paths.old.cells }
    ensures words { (paths.new.words ≡ paths.old.words) × (reach.new.words ≡ reach.old.words) }
    ensures added { WayAdded reach.old.words n x y reach.old.cells paths.old.cells reach.new.cells into.new paths.new.cells }
{
    if paths.holds(x, y) {
        return;
    }
    if paths.words == 1 {
        word::enter_words(&mut paths.cells, &mut reach.cells, into, x, y);
    } else {
        enter_rows(paths, reach, n, x, y);
    }
}
