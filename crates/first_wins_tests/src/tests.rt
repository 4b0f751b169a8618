use first_wins::list::{Entered, Full, enter, enter_all, position};
use first_wins::numbers::Numbers;
use first_wins::words::{Word, Words};
use std::test::Fail;

// Memo ids as they are marked: the second mark of an id changes nothing.
#[test]
fn marks_each_memo_id_once(rt: HostRuntime) {
    let mut marked = [0; 3];
    assert_eq!(rt; enter(&Numbers, &mut marked, 0, 0), Entered::New(0));
    assert_eq!(rt; enter(&Numbers, &mut marked, 1, 7), Entered::New(1));
    assert_eq!(rt; enter(&Numbers, &mut marked, 2, 0), Entered::Known(0));
    assert_eq!(rt; enter(&Numbers, &mut marked, 2, 7), Entered::Known(1));
    assert_eq!(rt; enter(&Numbers, &mut marked, 2, 9), Entered::New(2));
    assert_eq!(rt; enter(&Numbers, &mut marked, 3, 4), Entered::NoRoom);
    assert_eq!(rt; enter(&Numbers, &mut marked, 3, 9), Entered::Known(2));
    assert!(rt; marked == [0, 7, 9]);
    // More in use than there are places: the whole slice is.
    assert_eq!(rt; enter(&Numbers, &mut marked, 8, 9), Entered::Known(2));
    assert_eq!(rt; enter(&Numbers, &mut marked, 8, 4), Entered::NoRoom);
    assert_eq!(rt; position(&Numbers, &marked, &7), Some(1));
    assert_eq!(rt; position(&Numbers, &marked, &4), None);
}

#[test]
fn enters_sequences_in_a_row(rt: HostRuntime) {
    let mut list = [0; 4];
    assert_eq!(rt; enter_all(&Numbers, &mut list, 0, &[5, 3, 5]), Ok(2));
    assert_eq!(rt; enter_all(&Numbers, &mut list, 2, &[3, 8, 5]), Ok(3));
    assert!(rt; list == [5, 3, 8, 0]);
    assert_eq!(rt; enter_all(&Numbers, &mut list, 3, &[5, 3, 8]), Ok(3));
    assert_eq!(rt;
        enter_all(&Numbers, &mut list, 3, &[8, 1, 1, 2, 5]),
        Err(Full { index: 3 })
    );
    assert!(rt; list == [5, 3, 8, 1]);
}

// `a`, `items`, `a` again at another place, a word that begins like it, and no bytes at all.
#[test]
fn keeps_the_first_of_equal_words(rt: HostRuntime) -> Result<(), Fail> {
    let words = Words {
        bytes: b"a items a aa",
    };
    let a = Word { first: 0, count: 1 };
    let items = Word { first: 2, count: 5 };
    let other_a = Word { first: 8, count: 1 };
    let aa = Word {
        first: 10,
        count: 2,
    };
    let nothing = Word { first: 3, count: 0 };
    let mut list = [nothing; 5];
    let Ok(len) = enter_all(&words, &mut list, 0, &[a, items, other_a, aa, nothing]) else {
        return Err(Fail::new("there was no room"));
    };
    assert_eq!(rt; position(&words, &list[..len], &other_a), Some(0));
    assert_eq!(rt; len, 4);
    assert_eq!(rt; list[0], a);
    assert_eq!(rt; list[1], items);
    assert_eq!(rt; list[2], aa);
    assert_eq!(rt; list[3], nothing);
    assert!(rt; words.word(items) == b"items".as_slice());
    Ok(())
}
