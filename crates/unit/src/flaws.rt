// What may be wrong with one column: a helper for each rule.
ghost use Rattle.std.specs.Prelude.{◌≡◌};
ghost use Rattle.std.specs.Bool.{then_some};
ghost use Rattle.std.specs.Result.{result_err};
ghost use Rattle.unit.specs.Bytes.{bytes_of};
ghost use Rattle.unit.specs.Flaws.{number_flaw, part_flaw, optional_flaw, flag_flaw, empty_flaw, at};

use crate::records::UnknownKind;
use crate::refusal::Refusal;
use crate::table::Table;
use crate::unit_tables::Tables;
use tables::parts::Part;

// What is wrong with a row, before it is said where.
#[derive(Clone, Copy)]
pub(crate) enum Flaw {
    Outside,
    Unknown,
}

impl Flaw {
    // No `From`: where it stands is the caller's to say.
    pub(crate) fn at(self, table: Table, row: usize) -> Refusal
        ensures { result ≡ at table row self }
    {
        match self {
            Flaw::Outside => Refusal::Outside { table, row },
            Flaw::Unknown => Refusal::Unknown { table, row },
        }
    }
}

impl From<UnknownKind> for Flaw {
    ghost use Rattle.unit.specs.declared.flaws.Flaw.TheVariants.{Unknown};

    ghost from_gives = { λ _ flaw. flaw ≡ Unknown };

    fn from(_: UnknownKind) -> Flaw {
        Flaw::Unknown
    }
}

fn flaw_if(bad: bool, flaw: Flaw) -> Result<(), Flaw>
    ensures { result_err result ≡ then_some bad flaw }
{
    if bad { Err(flaw) } else { Ok(()) }
}

impl Tables<&[u8]> {
    pub(crate) fn check_number(&self, of: Table, number: u32) -> Result<(), Flaw>
        ensures { result_err result ≡ number_flaw (bytes_of self.now) of number }
    {
        flaw_if(self.rows(of) <= number as usize, Flaw::Outside)
    }

    pub(crate) fn check_optional(&self, of: Table, number: Option<u32>) -> Result<(), Flaw>
        ensures { result_err result ≡ optional_flaw (bytes_of self.now) of number }
    {
        match number {
            Some(number) => self.check_number(of, number),
            None => Ok(()),
        }
    }

    pub(crate) fn check_part(&self, of: Table, part: Part) -> Result<(), Flaw>
        ensures { result_err result ≡ part_flaw (bytes_of self.now) of part }
    {
        flaw_if(self.rows(of) < part.range().end, Flaw::Outside)
    }
}

pub(crate) fn check_filled(part: Part) -> Result<(), Flaw>
    ensures { result_err result ≡ empty_flaw part }
{
    flaw_if(part.count == 0, Flaw::Unknown)
}

pub(crate) fn check_flag(flag: u32) -> Result<(), Flaw>
    ensures { result_err result ≡ flag_flaw flag }
{
    flaw_if(flag > 1, Flaw::Unknown)
}
