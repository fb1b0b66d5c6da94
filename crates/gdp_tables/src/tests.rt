//! Values from outside: what every completion of a connective's values gives, and words among keywords.

use crate::{Tri, Word, Words, tri_and, tri_not, tri_or, tri_same};
use std::test::Fail;

// A connective, its values and its answer, for each case: `n` is No, `y` is Yes, `o` is Open.
const CONNECTIVES: &str = "\
not n y
not y n
not o o
and n n n
and n y n
and n o n
and y n n
and y y y
and y o o
and o n n
and o y o
and o o o
or n n n
or n y y
or n o o
or y n y
or y y y
or y o y
or o n o
or o y y
or o o o
same n n y
same n y n
same n o o
same y n n
same y y y
same y o o
same o n o
same o y o
same o o o";

// A word, and its code in the table below or `none`: first where case counts, then where it is ignored. `empty` is the
// word without bytes.
const WORDS: &str = "\
case or 1
case xor 2
case equivalent_to_it 3
case equivalent_to_its none
case equivalent_to_i none
case xo none
case OR none
empty
fold end 7
fold eND 7
fold S.T. 8
fold En none
fold [nd none";

fn tri(word: &str) -> Option<Tri> {
    match word {
        "n" => Some(Tri::No),
        "y" => Some(Tri::Yes),
        "o" => Some(Tri::Open),
        _ => None,
    }
}

// Whether a line's answer is the connective's, or none where the line is no case.
fn is_answer(words: &[&str]) -> Option<bool> {
    match words {
        ["not", a, not] => Some(tri_not(tri(a)?) == tri(not)?),
        ["and", a, b, and] => Some(tri_and(tri(a)?, tri(b)?) == tri(and)?),
        ["or", a, b, or] => Some(tri_or(tri(a)?, tri(b)?) == tri(or)?),
        ["same", a, b, same] => Some(tri_same(tri(a)?, tri(b)?) == tri(same)?),
        _ => None,
    }
}

#[test]
fn connectives_say_what_every_completion_gives(rt: HostRuntime) -> Result<(), Fail> {
    for line in CONNECTIVES.lines() {
        let words: Vec<&str> = line.split_whitespace().collect(rt.alloc())?;
        assert_eq!(rt; is_answer(words.as_slice()), Some(true), "{line}");
    }
    Ok(())
}

// Whether a line's word has its code, or none where the line is no case or the keywords make no table.
fn has_code(
    words: &[&str],
    cased: &Option<Words<'_, 3>>,
    folded: &Option<Words<'_, 2>>,
) -> Option<bool> {
    let (found, code) = match words {
        ["case", word, code] => (cased.as_ref()?.find(word.as_bytes()), code),
        ["fold", word, code] => (folded.as_ref()?.find(word.as_bytes()), code),
        ["empty"] => (cased.as_ref()?.find(b""), &"none"),
        _ => return None,
    };
    Some(found == code.parse::<u8>().ok())
}

#[test]
fn a_word_is_found_by_all_its_bytes(rt: HostRuntime) -> Result<(), Fail> {
    let cased = [
        Word::new("or", 1),
        Word::new("xor", 2),
        Word::new("equivalent_to_it", 3),
    ];
    let folded = [Word::new("End", 7), Word::new("s.t.", 8)];
    let (cased, folded) = (Words::new(&cased, false), Words::new(&folded, true));
    for line in WORDS.lines() {
        let words: Vec<&str> = line.split_whitespace().collect(rt.alloc())?;
        assert_eq!(rt;
            has_code(words.as_slice(), &cased, &folded),
            Some(true),
            "{line}"
        );
    }
    Ok(())
}

#[test]
fn equal_spellings_make_no_table(rt: HostRuntime) {
    let cased = [
        Word::new("min", 1),
        Word::new("max", 2),
        Word::new("MIN", 3),
    ];
    assert!(rt; Words::new(&cased, false).is_some());
    assert!(rt; Words::new(&cased, true).is_none());
    let twice = [Word::new("s.t.", 1), Word::new("s.t.", 1)];
    assert!(rt; Words::new(&twice, false).is_none());
    assert!(rt; Words::new(&twice, true).is_none());
}
