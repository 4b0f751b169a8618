// The ten tables by name.
ghost use Rattle.std.specs.Prelude.{◌≡◌};
ghost use Rattle.unit.specs.Format.{number, width, limit};

// Their numbers count from 0, in this order.
#[derive(Clone, Copy, PartialEq, Eq, Debug)]
pub enum Table {
    WordBytes,
    Words,
    Identifiers,
    Places,
    Functions,
    Blocks,
    Phis,
    Instructions,
    Declared,
    Steps,
}

impl Table {
    // In the order of their numbers.
    pub(crate) const ALL: [Table; 10] = [
        Table::WordBytes,
        Table::Words,
        Table::Identifiers,
        Table::Places,
        Table::Functions,
        Table::Blocks,
        Table::Phis,
        Table::Instructions,
        Table::Declared,
        Table::Steps,
    ];

    // By a method and no `From`, since it names what the number is; it is only told, in a refusal.
    pub(crate) fn number(self) -> u8
        ensures { result ≡ number self }
    {
        self as u8
    }

    // How many bytes a row has.
    pub(crate) fn width(self) -> usize
        ensures { result ≡ width self }
    {
        match self {
            Table::WordBytes => 1,
            Table::Words | Table::Steps => 8,
            Table::Identifiers | Table::Places | Table::Phis => 12,
            Table::Functions | Table::Declared => 16,
            Table::Instructions => 32,
            Table::Blocks => 40,
        }
    }

    // How many rows there may be.
    pub(crate) fn limit(self) -> usize
        ensures { result ≡ limit self }
    {
        match self {
            Table::WordBytes => 32_768,
            Table::Words | Table::Blocks | Table::Phis | Table::Declared => 1_024,
            Table::Identifiers => 2_048,
            Table::Places => 16_384,
            Table::Functions => 32,
            Table::Instructions | Table::Steps => 4_096,
        }
    }
}
