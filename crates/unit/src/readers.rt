// What is read of a checked unit, row by row.
ghost use Rattle.std.specs.Prelude.{◌≡◌};
ghost use Rattle.unit.specs.Bytes.{rows, row_at};
ghost use Rattle.unit.specs.Held.{held};
ghost use Rattle.unit.specs.Inside.{IsRow};
ghost use Rattle.unit.specs.Rows.{word_of};

use crate::checked::CheckedUnit;
use crate::records::Record;
use crate::rows::Word;
use crate::table::Table;
use tables::cells::row_of;
use tables::row::Row;

impl<'a> CheckedUnit<'a> {
    // How many rows a table has.
    #[tactic(auto, using(crate::proofs::Exact::few_rows))]
    pub fn rows(&self, table: Table) -> u32
        ensures { result ≡ rows (held self.now) table }
    {
        self.tables.rows(table) as u32
    }

    // What a row says, such as `unit.read::<Place>(7)`.
    pub fn read<R: Record>(&self, row: u32) -> R
        requires { IsRow (held self.now) R.TABLE row }
        ensures value { result ≡ R.decode (row_at (held self.now) R.TABLE row) }
        ensures inside { R.inside (held self.now) result }
    {
        let bytes = row_of(self.tables.bytes(R::TABLE), R::TABLE.width(), row as usize);
        R::decode(&Row::new(bytes))
    }

    // A word, as its bytes among the word bytes. The words of keys have their own, in a crate that knows no table.
    pub fn word(&self, row: u32) -> &'a [u8]
        requires { IsRow (held self.now) Table.Words row }
        ensures { result.now ≡ word_of (held self.now).word_bytes (row_at (held self.now) Table.Words row) }
    {
        let word = self.read::<Word>(row).bytes;
        &self.tables.word_bytes[word.range()]
    }
}
