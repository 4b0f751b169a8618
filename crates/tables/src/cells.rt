// Rows and cells: a row is a run of bytes, and a cell four bytes of a row, the lowest first.
ghost use Rattle.std.specs.Prelude.{◌≡◌, ◌+◌, ◌*◌, ◌≤◌, length};
ghost use Rattle.tables.specs.Cells.{number_at, cell, row_of, optional};

// The cell that means that there is none.
pub const NONE: u32 = u32::MAX;

pub fn row_of(table: &[u8], width: usize, row: usize) -> &[u8]
    requires { row * width + width ≤ length table.now }
    ensures value { result.now ≡ row_of table.now width row }
    ensures long { length result.now ≡ width }
{
    let at = row * width;
    &table[at..at + width]
}

// The number in the four bytes from `at` on. By their indices, so that their order stands in the line; `first_chunk` gives an Option to unwrap.
fn number_at(bytes: &[u8], at: usize) -> u32
    requires { at + 4 ≤ length bytes.now }
    ensures { result ≡ number_at bytes.now at }
{
    u32::from_le_bytes([bytes[at], bytes[at + 1], bytes[at + 2], bytes[at + 3]])
}

// Of any slice that is long enough, as `part_of` is; a `Row` asks only for a column that its kind has.
#[tactic(auto, unfolding(crate::specs::Cells::cell))]
pub fn cell(row: &[u8], column: usize) -> u32
    requires { 4 * column + 4 ≤ length row.now }
    ensures { result ≡ cell row.now column }
{
    number_at(row, 4 * column)
}

// No `From`: most numbers of a row have no none.
pub fn optional(number: u32) -> Option<u32>
    ensures { result ≡ optional number }
{
    if number == NONE { None } else { Some(number) }
}
