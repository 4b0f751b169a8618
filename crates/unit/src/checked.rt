// A unit that passed the check. Its type keeps that, so that no reader tests anything.
ghost use Rattle.std.specs.Prelude.{◌≡◌, true};
ghost use Rattle.unit.specs.Bytes.{bytes_of};
ghost use Rattle.unit.specs.Verdict.{passes};

use crate::unit_tables::Tables;

// A ghost field and no model: what is `Copy` and has a lifetime can't have one.
#[derive(Clone, Copy)]
pub struct CheckedUnit<'a> {
    pub(crate) tables: Tables<&'a [u8]>,
    ghost sound: { passes (bytes_of tables) ≡ true },
}
