// The check: tables become a checked unit, or are refused; and the same for a place that the caller holds.
ghost use Rattle.std.specs.Prelude.{◌≡◌, MatchResult};
ghost use Rattle.std.specs.Result.{result_err};
ghost use Rattle.unit.specs.Bytes.{bytes_of, no_bytes};
ghost use Rattle.unit.specs.Checks.{Checks};
ghost use Rattle.unit.specs.Held.{held};
ghost use Rattle.unit.specs.Law.{AcceptedExactly, RefusedFirst};
ghost use Rattle.unit.specs.Verdict.{verdict};

use crate::checked::CheckedUnit;
use crate::refusal::Refusal;
use crate::unit_tables::Tables;

impl<'a> CheckedUnit<'a> {
    // The unit without a row, as a place to fill.
    #[tactic(auto, unfolding(crate::specs::Verdict::verdict))]
    pub fn empty() -> CheckedUnit<'a>
        ensures { held result ≡ no_bytes }
    {
        CheckedUnit {
            tables: Tables::default(),
        }
    }
}

impl<'a> TryFrom<Tables<&'a [u8]>> for CheckedUnit<'a> {
    type Error = Refusal;

    ghost try_from_gives = { Checks };

    fn try_from(tables: Tables<&'a [u8]>) -> Result<CheckedUnit<'a>, Refusal> {
        tables.check()?;
        Ok(CheckedUnit { tables })
    }
}

// Puts the unit into `place`, or tells its first refusal and leaves `place` as it was.
pub fn check<'a>(tables: Tables<&'a [u8]>, place: &mut CheckedUnit<'a>) -> Result<(), Refusal>
    ensures answer { result_err result ≡ verdict (bytes_of tables.entry) }
    ensures filled { MatchResult result (λ _. place.new.tables ≡ tables.entry) (λ _. place.new ≡ place.old) }
    ensures exactly { AcceptedExactly (bytes_of tables.entry) }
    ensures first { RefusedFirst (bytes_of tables.entry) }
{
    *place = CheckedUnit::try_from(tables)?;
    Ok(())
}
