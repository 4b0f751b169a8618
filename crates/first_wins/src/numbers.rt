// Numbers, compared as numbers.
ghost use Rattle.std.specs.Prelude.{◌==◌, ⊤};
ghost use Rattle.first_wins.specs.Equivalences.{numbers_equivalence};

use crate::keys::Keys;

#[derive(Clone, Copy)]
pub struct Numbers;

impl Keys for Numbers {
    type Entry = u32;

    ghost admits = { λ _ _. ⊤ };

    ghost same = { λ _ a b. (a == b) };

    ghost lawful = { λ _. numbers_equivalence };

    fn same_key(&self, a: &u32, b: &u32) -> bool {
        *a == *b
    }
}
