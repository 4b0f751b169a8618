// Why a unit is refused.
ghost use Rattle.std.specs.Prelude.{Some};
ghost use Rattle.unit.specs.Told.{refusal_text};

use crate::table::Table;
use std::fmt;

// The first thing that is wrong with a unit, and where.
#[derive(Clone, Copy, PartialEq, Eq, Debug)]
pub enum Refusal {
    // The table's bytes are no whole rows, or more rows than its limit.
    Size { table: Table },
    // A number or a part in this row lies outside the table that it is about.
    Outside { table: Table, row: usize },
    // This row has an unknown kind, a flag over 1, or a call with an empty part.
    Unknown { table: Table, row: usize },
}

impl fmt::Display for Refusal {
    ghost output = { λ r. Some (refusal_text r) };

    fn fmt<W: fmt::Write>(&self, f: &mut fmt::Formatter<W>) -> fmt::Result {
        match *self {
            Refusal::Size { table } => write!(f, "refused 1, table {}", table.number()),
            Refusal::Outside { table, row } => {
                write!(f, "refused 2, table {}, row {row}", table.number())
            }
            Refusal::Unknown { table, row } => {
                write!(f, "refused 3, table {}, row {row}", table.number())
            }
        }
    }
}
