// Parts: consecutive rows of a table, given by the first and their count.
ghost use Rattle.std.specs.Prelude.{◌≡◌, ◌+◌, ◌*◌, ◌≤◌, length};
ghost use Rattle.tables.specs.Parts.{part_of};

use crate::cells::cell;
use std::ops::Range;

#[derive(Clone, Copy, PartialEq, Eq, Debug)]
pub struct Part {
    pub first: u32,
    pub count: u32,
}

impl Part {
    // The rows of the part, as indices. The sum is taken in 64 bits, so that it can't wrap.
    pub fn range(self) -> Range<usize>
        ensures start { result.start ≡ self.first }
        ensures end { result.end ≡ self.first + self.count }
    {
        let first = self.first as usize;
        first..first + self.count as usize
    }
}

// The part that stands in this column and the next.
pub fn part_of(row: &[u8], column: usize) -> Part
    requires { 4 * column + 8 ≤ length row.now }
    ensures { result ≡ part_of row.now column }
{
    Part {
        first: cell(row, column),
        count: cell(row, column + 1),
    }
}
