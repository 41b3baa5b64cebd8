//! The text of an answer that no script brings about.
use heap_model::Lane;
use script_machine::{Answer, Refusal};
use script_play::text;
use std::alloc::Global;

// Whether a record that is none, in a log, is told so.
fn is_told(alloc: Global, lane: Lane, place: u64, wanted: &[u8]) -> Option<bool> {
    let answer = Answer::Refused(Refusal::BadRecord { lane, place });
    match text(alloc, &answer) {
        Ok(printed) => Some(printed.as_slice() == wanted),
        Err(_) => None,
    }
}

#[test]
fn a_bad_record_prints_as_documented(rt: HostRuntime) {
    let text = b"refused bad record t2 7\n";
    assert!(rt; is_told(rt.alloc(), Lane(1), 7, text) == Some(true));
}
