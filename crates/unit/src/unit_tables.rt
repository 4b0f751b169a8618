// The ten tables of a unit: slices that someone lends, vectors that someone fills, or, in specs/, the bytes that they hold.
ghost use Rattle.std.specs.Prelude.{◌≡◌};
ghost use Rattle.unit.specs.Bytes.{bytes_of, bytes_at, rows};

use crate::table::Table;

// No model: it would hide the ten fields, which a caller fills by name.
#[derive(Clone, Copy, Default, Drop)]
pub struct Tables<T> {
    pub word_bytes: T,
    pub words: T,
    pub identifiers: T,
    pub places: T,
    pub functions: T,
    pub blocks: T,
    pub phis: T,
    pub instructions: T,
    pub declared: T,
    pub steps: T,
}

impl<'a> Tables<&'a [u8]> {
    pub(crate) fn bytes(&self, table: Table) -> &'a [u8]
        ensures { result.now ≡ bytes_at (bytes_of self.now) table }
    {
        match table {
            Table::WordBytes => self.word_bytes,
            Table::Words => self.words,
            Table::Identifiers => self.identifiers,
            Table::Places => self.places,
            Table::Functions => self.functions,
            Table::Blocks => self.blocks,
            Table::Phis => self.phis,
            Table::Instructions => self.instructions,
            Table::Declared => self.declared,
            Table::Steps => self.steps,
        }
    }

    pub(crate) fn rows(&self, table: Table) -> usize
        ensures { result ≡ rows (bytes_of self.now) table }
    {
        self.bytes(table).len() / table.width()
    }
}
