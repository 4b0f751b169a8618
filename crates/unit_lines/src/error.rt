// Why a line gives no unit.
ghost use Rattle.std.specs.Prelude.{◌≡◌};
ghost use Rattle.unit_lines.specs.declared.error.LineError.TheVariants.{Memory};

use std::alloc::AllocFailed;

#[derive(Clone, Copy, PartialEq, Eq, Debug)]
pub enum LineError {
    // The line is not ten fields, each a table.
    Unreadable,
    // There is no memory for its tables. An `AllocError` has one value, so that it is not carried.
    Memory,
}

// By hand, since clauses name this error and a derived `From` says nothing of it.
impl<T: Drop> From<AllocFailed<T>> for LineError {
    ghost from_gives = { λ _ e. e ≡ Memory };

    fn from(_: AllocFailed<T>) -> LineError {
        LineError::Memory
    }
}
