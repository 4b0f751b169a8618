// What makes two entries entries of one key.
ghost use Rattle.std.specs.Prelude.{◌≡◌, Bool};
ghost use Rattle.first_wins.specs.Keys.{Equivalence};

// The context is `Self`: an entry may be a handle that means something only there. A context need not know
// every entry; it compares those that it admits.
pub trait Keys {
    type Entry: Copy;

    ghost admits: { Self → Self.Entry → Type 0 };

    ghost same: { Self → Self.Entry → Self.Entry → Bool };

    ghost lawful: { (k : Self) → Equivalence (same k) };

    fn same_key(&self, a: &Self::Entry, b: &Self::Entry) -> bool
        requires first { admits self.now a.now }
        requires second { admits self.now b.now }
        ensures { result ≡ same self.now a.now b.now };
}
