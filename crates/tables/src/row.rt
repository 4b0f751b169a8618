// Rows by their kind: how many columns a row has stands in its type, so that none of its readers tests a length.
ghost use Rattle.std.specs.Prelude.{ℕ, List, ◌≡◌, ◌+◌, ◌*◌, ◌<◌, length};
ghost use Rattle.tables.specs.Cells.{cell, flag_at, optional};
ghost use Rattle.tables.specs.Parts.{part_of};

use crate::cells::{cell, optional};
use crate::parts::{Part, part_of};
use std::marker::{Model, PhantomData};

// A kind of rows, by its number of columns.
pub trait Layout {
    ghost columns: { ℕ };
}

#[derive(Drop)]
pub struct Row<'a, T: Layout> {
    bytes: &'a [u8],
    kind: PhantomData<T>,
}

// Seen from outside, a row is its bytes, and has all its columns.
impl<'a, T: Layout> Model for Row<'a, T> {
    ghost Value = { List ℕ };

    ghost view = { λ r. r.bytes.now };

    ghost invariant = { λ r. length r.bytes.now ≡ 4 * T.columns };
}

impl<'a, T: Layout> Row<'a, T> {
    pub fn new(row: &'a [u8]) -> Row<'a, T>
        requires { length row.now ≡ 4 * T.columns }
        ensures { result ≡ row.now }
    {
        Row {
            bytes: row,
            kind: PhantomData,
        }
    }

    // A column is asked for by its number, as an element of a slice is, so that each reader of one states the bound.
    pub fn cell(&self, column: usize) -> u32
        requires { column < T.columns }
        ensures { result ≡ cell self.now column }
    {
        cell(self.bytes, column)
    }

    pub fn flag(&self, column: usize) -> bool
        requires { column < T.columns }
        ensures { result ≡ flag_at self.now column }
    {
        self.cell(column) == 1
    }

    pub fn optional(&self, column: usize) -> Option<u32>
        requires { column < T.columns }
        ensures { result ≡ optional (cell self.now column) }
    {
        optional(self.cell(column))
    }

    // The part that stands in this column and the next.
    pub fn part(&self, column: usize) -> Part
        requires { column + 1 < T.columns }
        ensures { result ≡ part_of self.now column }
    {
        part_of(self.bytes, column)
    }
}
