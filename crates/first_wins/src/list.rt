// The list: the first `len` entries of a slice, or all of them where it has fewer.
// No struct holds the two: a model hides what the lent slice ends as, no ghost field keeps what `admits` says, which may be any type, and with
// neither each method had its clauses and one more. Functions, and no `final` methods of `Keys`: so the trait says what a key is and no more.
ghost use Rattle.std.specs.Prelude.{◌≡◌, take, All, IfOk, MatchResult};
ghost use Rattle.first_wins.specs.Entering.{Answered, written, used_after, Grown, AnsweredAll};
ghost use Rattle.first_wins.specs.Keys.{FirstAt};
ghost use Rattle.first_wins.specs.Laws.{EarliestOfAll, OnceEach, NothingTwice, InARow};

use crate::keys::Keys;

// The key was there, and at which index; or the entry is new, and at which index it stands; or it is new and there is no room.
// No `Result` with an error for no room: `enter` can't fail, and a caller would match twice to tell three answers apart.
#[derive(Clone, Copy, PartialEq, Eq, Debug)]
pub enum Entered {
    Known(usize),
    New(usize),
    NoRoom,
}

// The entry of a sequence, by its index there, that was new and found the slice full.
#[derive(Clone, Copy, PartialEq, Eq, Debug)]
pub struct Full {
    pub index: usize,
}

// Where the first entry with the key of `sought` stands.
pub fn position<K: Keys>(keys: &K, list: &[K::Entry], sought: &K::Entry) -> Option<usize>
    requires held { All (K.Keys.admits keys.now) list.now }
    requires asked { K.Keys.admits keys.now sought.now }
    ensures { FirstAt (K.Keys.same keys.now) list.now sought.now result }
{
    list.iter().position(|held| keys.same_key(held, sought))
}

// The list that stands in a slice.
fn in_use<T: Copy>(slice: &[T], len: usize) -> &[T]
    ensures { result.now ≡ take len slice.now }
{
    slice.get(..len).unwrap_or(slice)
}

// Enters an entry into the list of the first `len` entries of the slice.
#[tactic(auto, using(crate::proofs::Known::first_known))]
pub fn enter<K: Keys>(keys: &K, slice: &mut [K::Entry], len: usize, new: K::Entry) -> Entered
    requires held { All (K.Keys.admits keys.now) (take len slice.old) }
    requires asked { K.Keys.admits keys.now new }
    ensures answer { Answered (K.Keys.same keys.now) slice.old len new result }
    ensures holds { slice.new ≡ written slice.old new result }
    ensures grown { Grown (K.Keys.same keys.now) (take len slice.old) (take (used_after len result) slice.new) new result }
    ensures admitted { All (K.Keys.admits keys.now) (take (used_after len result) slice.new) }
{
    if let Some(index) = position(keys, in_use(slice, len), &new) {
        return Entered::Known(index);
    }
    if len >= slice.len() {
        return Entered::NoRoom;
    }
    // By its index: after `get_mut` a proof knows the length of the slice and none of its entries.
    slice[len] = new;
    Entered::New(len)
}

// Enters the entries of a sequence, one after another. It gives how many are then in use, and stops at the first that
// finds no room.
pub fn enter_all<K: Keys>(
    keys: &K,
    slice: &mut [K::Entry],
    len: usize,
    sequence: &[K::Entry],
) -> Result<usize, Full>
    requires held { All (K.Keys.admits keys.now) (take len slice.old) }
    requires asked { All (K.Keys.admits keys.now) sequence.now }
    ensures answer { AnsweredAll (K.Keys.same keys.now) slice.old slice.new len sequence.now result }
    ensures admitted { MatchResult result (λ n. All (K.Keys.admits keys.now) (take n slice.new)) (λ _. All (K.Keys.admits keys.now) slice.new) }
    ensures earliest { IfOk result (λ n. EarliestOfAll (K.Keys.same keys.now) (take len slice.old) sequence.now (take n slice.new)) }
    ensures once { IfOk result (λ n. OnceEach (K.Keys.same keys.now) (take len slice.old) sequence.now (take n slice.new)) }
    ensures again { IfOk result (λ n. NothingTwice (K.Keys.same keys.now) (take len slice.old) sequence.now (take n slice.new)) }
    ensures row { IfOk result (λ n. InARow (K.Keys.same keys.now) (take len slice.old) sequence.now (take n slice.new)) }
{
    let mut used = in_use(slice, len).len();
    for (index, new) in sequence.iter().enumerate() {
        match enter(keys, slice, used, *new) {
            Entered::Known(_) => {}
            Entered::New(_) => used += 1,
            Entered::NoRoom => return Err(Full { index }),
        }
    }
    Ok(used)
}
