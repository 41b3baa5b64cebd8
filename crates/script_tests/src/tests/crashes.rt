//! What is shown and recovered after a crash.
use crate::tests::{Play, first_unplayed, is_played};
use std::alloc::{AllocError, Global};

// A section that is logged, written home and acknowledged.
const ACKNOWLEDGED: Play = (
    b"\
object o0\n\
object o1\n\
object o2\n\
object o3\n\
field f0 o0 o0 10\n\
field f1 o1 o1 20\n\
format 2 4000\n\
t1 enter o0\n\
t1 store f0 5\n\
t1 exit o0\n\
log\n\
home\n\
settle\n\
",
    b"\
formatted 130208\n\
ok\n\
ok\n\
ok\n\
logged 3\n\
wrote 1\n\
acknowledged 1 0\n\
",
);

// The same with a trim, and one that finds nothing to trim.
const TRIMMED: Play = (
    b"\
object o0\n\
object o1\n\
object o2\n\
object o3\n\
field f0 o0 o0 10\n\
field f1 o1 o1 20\n\
format 2 4000\n\
t1 enter o0\n\
t1 store f0 5\n\
t1 exit o0\n\
log\n\
home\n\
settle\n\
trim\n\
trim\n\
",
    b"\
formatted 130208\n\
ok\n\
ok\n\
ok\n\
logged 3\n\
wrote 1\n\
acknowledged 1 0\n\
ok\n\
ok\n\
",
);

// Two sections, of which the second took what the first freed. Both are acknowledged once the first has ended.
const BOTH: Play = (
    b"\
object o0\n\
object o1\n\
object o2\n\
object o3\n\
field f0 o0 o0 10\n\
field f1 o1 o1 20\n\
format 2 4000\n\
t1 enter o0\n\
t1 enter o1\n\
t1 store f0 1\n\
t1 exit o0\n\
t2 enter o0\n\
t2 store f0 2\n\
t2 exit o0\n\
log\n\
home\n\
settle\n\
t1 exit o1\n\
log\n\
home\n\
settle\n\
",
    b"\
formatted 130208\n\
ok\n\
ok\n\
ok\n\
ok\n\
ok\n\
ok\n\
ok\n\
logged 7\n\
wrote 1\n\
acknowledged 0 0\n\
ok\n\
logged 1\n\
wrote 0\n\
acknowledged 1 1\n\
",
);

// A section that is logged and written home, and not acknowledged.
const LOGGED: Play = (
    b"\
object o0\n\
object o1\n\
object o2\n\
object o3\n\
field f0 o0 o0 10\n\
field f1 o1 o1 20\n\
format 2 4000\n\
t1 enter o0\n\
t1 store f0 5\n\
t1 exit o0\n\
log\n\
home\n\
",
    b"\
formatted 130208\n\
ok\n\
ok\n\
ok\n\
logged 3\n\
wrote 1\n\
",
);

// An image that was formatted alone.
const FORMATTED: Play = (
    b"\
object o0\n\
object o1\n\
object o2\n\
object o3\n\
field f0 o0 o0 10\n\
field f1 o1 o1 20\n\
format 2 4000\n\
",
    b"\
formatted 130208\n\
",
);

// A thread that waits inside of a section, with the monitor of another object held.
const WAITED: Play = (
    b"\
object o0\n\
object o1\n\
object o2\n\
object o3\n\
field f0 o0 o0 10\n\
field f1 o1 o1 20\n\
format 2 4000\n\
t1 enter o0\n\
t1 enter o1\n\
t1 wait o0\n\
log\n\
settle\n\
",
    b"\
formatted 130208\n\
ok\n\
ok\n\
waiting\n\
logged 3\n\
acknowledged 0 0\n\
",
);

// Two sections, each of which took what the other freed; the second is unfinished.
const CIRCLE: Play = (
    b"\
object o0\n\
object o1\n\
object o2\n\
object o3\n\
field f0 o0 o0 10\n\
field f1 o1 o1 20\n\
format 2 4000\n\
t1 enter o0\n\
t1 enter o1\n\
t1 exit o1\n\
t2 enter o2\n\
t2 enter o1\n\
t2 exit o2\n\
t1 enter o2\n\
t1 exit o2\n\
t1 exit o0\n\
log\n\
settle\n\
",
    b"\
formatted 130208\n\
ok\n\
ok\n\
ok\n\
ok\n\
ok\n\
ok\n\
ok\n\
ok\n\
ok\n\
logged 9\n\
acknowledged 0 0\n\
",
);

// A section that took what an unfinished one freed, and its thread's next.
const CHAINED: Play = (
    b"\
object o0\n\
object o1\n\
object o2\n\
object o3\n\
field f0 o0 o0 10\n\
field f1 o1 o1 20\n\
format 2 4000\n\
t1 enter o0\n\
t1 enter o1\n\
t1 store f0 1\n\
t1 exit o0\n\
t2 enter o0\n\
t2 store f0 2\n\
t2 exit o0\n\
t2 enter o3\n\
t2 exit o3\n\
log\n\
home\n\
settle\n\
",
    b"\
formatted 130208\n\
ok\n\
ok\n\
ok\n\
ok\n\
ok\n\
ok\n\
ok\n\
ok\n\
ok\n\
logged 9\n\
wrote 1\n\
acknowledged 0 0\n\
",
);

// The section that isn't acknowledged, and a recovery that drops it.
const RECOVERED: Play = (
    b"\
object o0\n\
object o1\n\
object o2\n\
object o3\n\
field f0 o0 o0 10\n\
field f1 o1 o1 20\n\
format 2 4000\n\
t1 enter o0\n\
t1 store f0 5\n\
t1 exit o0\n\
log\n\
home\n\
crash kept\n\
recover\n\
",
    b"\
formatted 130208\n\
ok\n\
ok\n\
ok\n\
logged 3\n\
wrote 1\n\
crashed\n\
kept 0 0\n\
dropped t1 1 unsettled\n\
undone 1\n\
heap 10 20\n\
",
);

const SECTION_KEPT: &[u8] = b"kept 1 0\nundone 0\nheap 5 20\n";

const SECTION_DROPPED: &[u8] = b"kept 0 0\ndropped t1 1 unsettled\nundone 1\nheap 10 20\n";

const BOTH_KEPT: &[u8] = b"kept 1 1\nundone 0\nheap 2 20\n";

const BOTH_DROPPED: &[u8] = b"\
kept 0 0\n\
dropped t1 1 unsettled\n\
dropped t2 1 unsettled\n\
undone 1\n\
heap 10 20\n\
";

const NOTHING_KEPT: &[u8] = b"kept 0 0\nundone 0\nheap 10 20\n";

const WAITING_DROPPED: &[u8] = b"kept 0 0\ndropped t1 1 unfinished\nundone 0\nheap 10 20\n";

const CIRCLE_DROPPED: &[u8] = b"\
kept 0 0\n\
dropped t1 1 after t2 1\n\
dropped t2 1 unfinished\n\
undone 0\n\
heap 10 20\n\
";

const CHAINED_DROPPED: &[u8] = b"\
kept 0 0\n\
dropped t1 1 unfinished\n\
dropped t2 1 after t1 1\n\
dropped t2 2 after t2 1\n\
undone 1\n\
heap 10 20\n\
";

fn joined(alloc: Global, first: &[u8], second: &[u8], third: &[u8]) -> Result<Vec<u8>, AllocError> {
    let mut text = Vec::new(alloc);
    text.extend_from_slice(first)?;
    text.extend_from_slice(second)?;
    text.extend_from_slice(third)?;
    Ok(text)
}

// A crash with its script, and what the recovery behind it tells.
type Crash = (Play, &'static [u8], &'static [u8]);

// The last calls of a settling or of a trim, from the end: a sync, the gate's opening, a sync, the body, a sync, the gate's closing.
const CRASHES: &[Crash] = &[
    (LOGGED, b"crash kept\n", SECTION_DROPPED),
    (ACKNOWLEDGED, b"crash kept back 2\n", SECTION_KEPT),
    (ACKNOWLEDGED, b"crash lost back 2\n", SECTION_DROPPED),
    // The gate's own byte is all that may be lost: 00 reads as closed, a5 as open.
    (ACKNOWLEDGED, b"crash 00 back 1\n", SECTION_DROPPED),
    (ACKNOWLEDGED, b"crash a5 back 1\n", SECTION_KEPT),
    (ACKNOWLEDGED, b"crash a5 back 3\n", SECTION_DROPPED),
    (ACKNOWLEDGED, b"crash a5 back 6\n", SECTION_DROPPED),
    (TRIMMED, b"crash lost\n", SECTION_KEPT),
    (TRIMMED, b"crash kept back 2\n", SECTION_KEPT),
    (TRIMMED, b"crash a5 back 4\n", SECTION_KEPT),
    (TRIMMED, b"crash lost back 8\n", SECTION_DROPPED),
    (BOTH, b"crash lost back 1\n", BOTH_DROPPED),
    (BOTH, b"crash kept back 1\n", BOTH_KEPT),
    (FORMATTED, b"crash 00\n", NOTHING_KEPT),
    (WAITED, b"crash lost\n", WAITING_DROPPED),
    (CIRCLE, b"crash lost\n", CIRCLE_DROPPED),
    (CHAINED, b"crash lost\n", CHAINED_DROPPED),
    (RECOVERED, b"crash ff back 7\n", SECTION_DROPPED),
];

// Whether the lines are played, then the crash and this line, which recovers.
fn is_recovered(alloc: Global, case: &Crash, line: &[u8]) -> Option<bool> {
    let ((lines, printed), crash, report) = *case;
    let script = joined(alloc, lines, crash, line).ok()?;
    let wanted = joined(alloc, printed, b"crashed\n", report).ok()?;
    Some(is_played(alloc, &script, &wanted, None))
}

// The first of these that isn't.
fn first_unrecovered(alloc: Global, line: &[u8]) -> Option<usize> {
    for (place, case) in CRASHES.iter().enumerate() {
        if is_recovered(alloc, case, line) != Some(true) {
            return Some(place);
        }
    }
    None
}

#[test]
fn crashes_are_recovered(rt: HostRuntime) {
    assert!(rt; first_unrecovered(rt.alloc(), b"recover\n").is_none());
    // A script's own image has the current version, of which an upgrade is a recovery.
    assert!(rt; first_unrecovered(rt.alloc(), b"upgrade\n").is_none());
}

// A section that drags another along, shown after the crash and not before it.
const DRAGGED: Play = (
    b"\
object o0\n\
object o1\n\
object o2\n\
object o3\n\
field f0 o0 o0 10\n\
field f1 o1 o1 20\n\
format 2 4000\n\
t1 enter o0\n\
t1 enter o1\n\
t1 store f0 1\n\
t1 exit o0\n\
t2 enter o0\n\
t2 store f0 2\n\
t2 exit o0\n\
log\n\
home\n\
settle\n\
show\n\
crash lost\n\
show\n\
recover\n\
",
    b"\
formatted 130208\n\
ok\n\
ok\n\
ok\n\
ok\n\
ok\n\
ok\n\
ok\n\
logged 7\n\
wrote 1\n\
acknowledged 0 0\n\
refused state\n\
crashed\n\
image lanes 2 capacity 4000 objects 4 fields 2 size 130208\n\
control a sequence 3 version 2\n\
lane t1 start 0 settled 0 logged 4 kept 0\n\
lane t2 start 0 settled 0 logged 3 kept 0\n\
section t1 1 unfinished records 4\n\
section t2 1 whole records 3\n\
depends t2 1 on t1 1 object 0 number 1\n\
cut 0 0\n\
heap 10 20\n\
kept 0 0\n\
dropped t1 1 unfinished\n\
dropped t2 1 after t1 1\n\
undone 1\n\
heap 10 20\n\
",
);

// A crash inside of an upgrade.
const UPGRADED: Play = (
    b"\
object o0\n\
object o1\n\
object o2\n\
object o3\n\
field f0 o0 o0 10\n\
field f1 o1 o1 20\n\
format 2 4000\n\
upgrade\n\
t1 enter o0\n\
t1 store f0 5\n\
t1 exit o0\n\
log\n\
home\n\
crash kept\n\
upgrade\n\
crash ff back 7\n\
recover\n\
",
    b"\
formatted 130208\n\
refused state\n\
ok\n\
ok\n\
ok\n\
logged 3\n\
wrote 1\n\
crashed\n\
kept 0 0\n\
dropped t1 1 unsettled\n\
undone 1\n\
heap 10 20\n\
crashed\n\
kept 0 0\n\
dropped t1 1 unsettled\n\
undone 1\n\
heap 10 20\n\
",
);

// A crash before the last sync of the format.
const UNFORMATTED: Play = (
    b"\
object o0\n\
field f0 o0 o0 10\n\
format 1 2000\n\
crash lost back 1\n\
show\n\
recover\n\
heap\n\
",
    b"\
formatted 34184\n\
crashed\n\
refused not formatted\n\
refused not formatted\n\
refused state\n\
",
);

const SHOWN: &[Play] = &[DRAGGED, UPGRADED, UNFORMATTED];

#[test]
fn images_are_shown(rt: HostRuntime) {
    assert!(rt; first_unplayed(rt.alloc(), SHOWN).is_none());
}
