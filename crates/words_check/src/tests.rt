// What is known of a shelf's places: all that were lent are there, whatever the list's words are.
use crate::check_list;
use words_meaning::MOST;
use words_shelf::{NO_WORD, Words};

// A list of one word, `s` = `{x}`.
const ONE: [u8; 16] = [1, 0, 0, 0, 1, 0, 0, 0, b's', 3, 0, 0, 0, b'{', b'x', b'}'];

#[test]
fn a_shelf_has_all_the_places_lent(rt: HostRuntime) {
    let mut words: Words = [NO_WORD; MOST];
    assert!(rt;
        matches!(check_list(&[0, 0, 0, 0], &mut words), Ok(shelf) if shelf.below == 0 && shelf.words.len() == MOST)
    );
    assert!(rt; check_list(&[1, 0, 0, 0], &mut words).is_err());
    assert!(rt;
        matches!(check_list(&ONE, &mut words), Ok(shelf) if shelf.below == 1 && shelf.words.len() == MOST)
    );
    let mut more = [NO_WORD; MOST + 1];
    assert!(rt;
        matches!(check_list(&ONE, &mut more), Ok(shelf) if shelf.below == 1 && shelf.words.len() == MOST + 1)
    );
}
