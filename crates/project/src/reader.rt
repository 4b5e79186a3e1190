// Reading a section row by row, or list by list: a reader of rows holds the section's bytes and a position.
ghost use Rattle.std.specs.Prelude.{◌≡◌};
ghost use Rattle.std.specs.Iterator.{YieldsFirstBy, YieldsFirstRef, item_count};
ghost use Rattle.rules.specs.Project.{circle_lists};
ghost use Rattle.project.specs.Counted.{AreWhole};

use super::sections::{Row, list_at};
use std::marker::{Model, PhantomData};

// The rows of a section, seen as the bytes that are left.
#[derive(Drop)]
pub struct Reader<'a, R: Row> {
    bytes: &'a [u8],
    at: usize,
    row: PhantomData<R>,
}

impl<'a, R: Row> Model for Reader<'a, R> {
    ghost use Rattle.std.specs.Prelude.{ℕ, List, ◌≤◌, length, drop};

    ghost Value = { List ℕ };

    ghost view = { λ r. drop r.at r.bytes.now };

    ghost invariant = { λ r. r.at ≤ length r.bytes.now };
}

impl<'a, R: Row> Reader<'a, R> {
    pub fn new(section: &'a [u8]) -> Self
        ensures { result ≡ section.now }
    {
        Reader {
            bytes: section,
            at: 0,
            row: PhantomData,
        }
    }
}

impl<'a, R: Row> Iterator for Reader<'a, R> {
    type Item = R;

    ghost next_gives = { YieldsFirstBy R.paper R.rows };

    ghost remaining = { item_count R.rows };

    fn next(&mut self) -> Option<R> {
        if self.bytes.len() - self.at < R::BYTES {
            return None;
        }
        let row = R::decode(&self.bytes[self.at..]);
        self.at += R::BYTES;
        Some(row)
    }
}

// Lists that stand one behind the other, each a count byte and its members; seen as those that are left.
#[derive(Drop)]
pub struct Lists<'a> {
    bytes: &'a [u8],
}

impl<'a> Model for Lists<'a> {
    ghost use Rattle.std.specs.Prelude.{ℕ, List};
    ghost use Rattle.rules.specs.Project.{circle_lists};
    ghost use Rattle.project.specs.Counted.{AreWhole};

    ghost Value = { List (List ℕ) };

    ghost view = { λ l. circle_lists l.bytes.now };

    ghost invariant = { λ l. AreWhole l.bytes.now };
}

impl<'a> Lists<'a> {
    pub fn new(bytes: &'a [u8]) -> Self
        requires { AreWhole bytes.now }
        ensures { result ≡ circle_lists bytes.now }
    {
        Lists { bytes }
    }
}

impl<'a> Iterator for Lists<'a> {
    type Item = &'a [u8];

    ghost next_gives = { YieldsFirstRef (λ lists. lists) };

    ghost remaining = { item_count (λ lists. lists) };

    fn next(&mut self) -> Option<&'a [u8]> {
        let (_, rest) = self.bytes.split_first()?;
        let list = list_at(self.bytes, 0);
        self.bytes = &rest[list.len()..];
        Some(list)
    }
}
