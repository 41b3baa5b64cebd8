//! The texts of recovery's refusals.
use heap_model::Lane;
use recover::RecoverError;
use std::alloc::Global;

fn reads(alloc: Global, error: RecoverError, words: &str) -> bool {
    match format!(in alloc; "{error}") {
        Ok(text) => text.as_str() == words,
        Err(_) => false,
    }
}

// The first of these refusals that has other words, by its number.
fn other_words(alloc: Global, cases: &[(RecoverError, &str)]) -> Option<usize> {
    for (row, (error, words)) in cases.iter().enumerate() {
        if !reads(alloc, *error, words) {
            return Some(row);
        }
    }
    None
}

// The words of docs/SCRIPTS.md; a fault and want of memory are those of the program's texts.
#[test]
fn errors_print_as_documented(rt: HostRuntime) {
    let (lane, place) = (Lane(1), 7);
    let bad = RecoverError::BadRecord { lane, place };
    let (lane, place) = (Lane(0), 0);
    let illegal = RecoverError::IllegalLog { lane, place };
    let cases = [
        (RecoverError::Fault, "fault"),
        (RecoverError::NotFormatted, "not formatted"),
        (RecoverError::BadHeader, "bad header"),
        (RecoverError::TooSmall, "too small"),
        (RecoverError::NoControl, "no control"),
        (RecoverError::BadControl, "bad control"),
        (RecoverError::OldVersion, "old version"),
        (RecoverError::Worn, "worn"),
        (bad, "bad record t2 7"),
        (illegal, "illegal log t1 0"),
        (RecoverError::NoMemory, "no memory"),
    ];
    assert!(rt; other_words(rt.alloc(), &cases) == None);
}
