//! Lanes whose places are used again.
use crate::tests::is_played;
use std::alloc::{AllocError, Global};

// A script, and what it prints.
#[derive(Drop)]
struct Played {
    lines: Vec<u8>,
    printed: Vec<u8>,
}

fn add(played: &mut Played, lines: &[u8], printed: &[u8]) -> Result<(), AllocError> {
    played.lines.extend_from_slice(lines)?;
    played.printed.extend_from_slice(printed)?;
    Ok(())
}

// A section of 1,000 records, whose stores are all this one.
fn add_section(played: &mut Played, store: &[u8]) -> Result<(), AllocError> {
    add(played, b"t1 enter o0\n", b"ok\n")?;
    for _ in 0..998 {
        add(played, store, b"ok\n")?;
    }
    add(played, b"t1 exit o0\n", b"ok\n")
}

// Two sections fill an area of 2,000 records. They are acknowledged and trimmed, and a third, which takes the places of the
// first, is logged and no more.
fn add_places_again(played: &mut Played) -> Result<(), AllocError> {
    add(
        played,
        b"object o0\nfield f0 o0 o0 10\nformat 1 2000\n",
        b"formatted 34184\n",
    )?;
    add_section(played, b"t1 store f0 5\n")?;
    add_section(played, b"t1 store f0 6\n")?;
    add(
        played,
        b"t1 enter o0\nlog\nhome\nsettle\ntrim\n",
        b"refused log full\nlogged 2000\nwrote 1\nacknowledged 2\nok\n",
    )?;
    add_section(played, b"t1 store f0 7\n")?;
    add(
        played,
        b"log\ncrash lost\ntrim\nshow\nrecover\n",
        b"\
logged 1000\n\
crashed\n\
refused state\n\
image lanes 1 capacity 2000 objects 1 fields 1 size 34184\n\
control a sequence 5 version 2\n\
lane t1 start 2000 settled 2000 logged 3000 kept 2\n\
section t1 3 whole records 1000\n\
cut 2\n\
heap 6\n\
kept 2\n\
dropped t1 3 unsettled\n\
undone 1\n\
heap 6\n\
",
    )
}

// Whether it is played so.
fn are_places_used_again(alloc: Global) -> Option<bool> {
    let mut played = Played {
        lines: Vec::new(alloc),
        printed: Vec::new(alloc),
    };
    add_places_again(&mut played).ok()?;
    Some(is_played(alloc, &played.lines, &played.printed, None))
}

#[test]
fn a_section_takes_the_places_of_a_trimmed_one(rt: HostRuntime) {
    assert!(rt; are_places_used_again(rt.alloc()) == Some(true));
}
