// Words that lie in a table of bytes, compared by their bytes.
ghost use Rattle.std.specs.Prelude.{◌≡◌};
ghost use Rattle.std.specs.Str.{bytes_eq};
ghost use Rattle.first_wins.specs.Equivalences.{bytes_equivalence};
ghost use Rattle.first_wins.specs.Words.{Lies, word_of};

use crate::keys::Keys;

// Where a word begins, and how many bytes it has. A part of a table is the same two numbers, but for these
// this crate would stand on one that knows tables; so `word` slices by them too.
#[derive(Clone, Copy, PartialEq, Eq, Debug)]
pub struct Word {
    pub first: u32,
    pub count: u32,
}

#[derive(Clone, Copy)]
pub struct Words<'a> {
    pub bytes: &'a [u8],
}

impl<'a> Words<'a> {
    pub fn word(&self, word: Word) -> &'a [u8]
        requires { Lies self.now.bytes.now word }
        ensures { result.now ≡ word_of self.now.bytes.now word }
    {
        let first = word.first as usize;
        &self.bytes[first..first + word.count as usize]
    }
}

impl<'a> Keys for Words<'a> {
    type Entry = Word;

    ghost admits = { λ w a. Lies w.bytes.now a };

    ghost same = { λ w a b. bytes_eq (word_of w.bytes.now a) (word_of w.bytes.now b) };

    ghost lawful = { λ w. bytes_equivalence (word_of w.bytes.now) };

    fn same_key(&self, a: &Word, b: &Word) -> bool {
        self.word(*a) == self.word(*b)
    }
}
