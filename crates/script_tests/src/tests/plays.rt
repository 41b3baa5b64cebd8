//! Threads on several lanes, nested locks, waits, and lines that are refused.
use crate::tests::{Play, first_unplayed};

// A nested exit frees nothing.
const NESTED: Play = (
    b"\
object o0\n\
object o1\n\
object o2\n\
object o3\n\
field f0 o0 o0 10\n\
field f1 o1 o1 20\n\
format 2 4000\n\
t1 enter o0\n\
t1 enter o0\n\
t1 exit o0\n\
t1 store f0 6\n\
t1 exit o0\n\
log\n\
home\n\
settle\n\
heap\n\
",
    b"\
formatted 130208\n\
ok\n\
ok\n\
ok\n\
ok\n\
ok\n\
logged 3\n\
wrote 1\n\
acknowledged 1 0\n\
heap 6 20\n\
",
);

// A thread that holds nothing stores and frees nothing.
const NOT_HELD: Play = (
    b"\
object o0\n\
object o1\n\
object o2\n\
object o3\n\
field f0 o0 o0 10\n\
field f1 o1 o1 20\n\
format 2 4000\n\
t1 store f0 1\n\
t1 exit o0\n\
heap\n\
",
    b"\
formatted 130208\n\
refused not held\n\
refused not held\n\
heap 10 20\n\
",
);

// A wait acknowledges what its section did; a woken thread takes its monitor again where that is free.
const WAITS: Play = (
    b"\
object o0\n\
object o1\n\
field f0 o0 o0 10\n\
format 2 4000\n\
t1 resume\n\
t1 enter o0\n\
t1 store f0 7\n\
t1 wait o0\n\
t1 exit o0\n\
log\n\
home\n\
settle\n\
t1 resume\n\
t2 enter o0\n\
t2 notify o0\n\
t1 resume\n\
t2 exit o0\n\
t1 resume\n\
t1 exit o0\n\
log\n\
settle\n\
",
    b"\
formatted 130184\n\
refused not waiting\n\
ok\n\
ok\n\
waiting\n\
refused waiting\n\
logged 3\n\
wrote 1\n\
acknowledged 1 0\n\
refused in set\n\
ok\n\
woke t1\n\
refused held\n\
ok\n\
ok\n\
ok\n\
logged 4\n\
acknowledged 2 1\n\
",
);

// The least thread is woken first, and nobody where the set is empty.
const WOKEN: Play = (
    b"\
object o0\n\
object o1\n\
field f0 o0 o0 10\n\
format 4 4000\n\
t1 notify o0\n\
t2 enter o0\n\
t2 wait o0\n\
t1 enter o0\n\
t1 wait o0\n\
t4 enter o0\n\
t4 enter o0\n\
t4 wait o0\n\
t3 enter o0\n\
t3 notify o1\n\
t3 notify o0\n\
t3 notifyall o0\n\
t3 notifyall o0\n\
t3 exit o0\n\
t4 resume\n\
t4 exit o0\n\
t4 exit o0\n\
t4 exit o0\n\
t5 enter o0\n\
t5 resume\n\
t4 wait o2\n\
",
    b"\
formatted 258184\n\
refused not held\n\
ok\n\
waiting\n\
ok\n\
waiting\n\
ok\n\
ok\n\
waiting\n\
ok\n\
refused not held\n\
woke t1\n\
woke t2 t4\n\
none\n\
ok\n\
ok\n\
ok\n\
ok\n\
refused not held\n\
refused lane\n\
refused lane\n\
refused unknown\n\
",
);

// A section is acknowledged with what it took from another lane's; a crash has no more calls behind it than there were.
const TWO_LANES: Play = (
    b"\
object o0\n\
object o1\n\
field f0 o0 o0 10\n\
format 2 4000\n\
t1 enter o0\n\
t1 enter o1\n\
t1 store f0 1\n\
t1 exit o0\n\
t2 enter o0\n\
t2 store f0 2\n\
t2 exit o0\n\
log\n\
settle\n\
home\n\
settle\n\
t1 exit o1\n\
log\n\
settle\n\
heap\n\
crash lost back 99\n\
crash a5 back 1\n\
heap\n\
",
    b"\
formatted 130184\n\
ok\n\
ok\n\
ok\n\
ok\n\
ok\n\
ok\n\
ok\n\
logged 7\n\
refused unwritten\n\
wrote 1\n\
acknowledged 0 0\n\
ok\n\
logged 1\n\
acknowledged 1 1\n\
heap 2\n\
refused back\n\
crashed\n\
refused state\n\
",
);

// A transient field keeps what threads store while the machine runs, and after `recover` has its first value; no log and no
// home write has its stores.
const TRANSIENT: Play = (
    b"\
object o0\n\
object o1\n\
object o2\n\
object o3\n\
field f0 o0 o0 10\n\
field f1 o1 o1 20\n\
transient f2 o0 o0 30\n\
format 2 4000\n\
t1 enter o0\n\
t1 store f2 31\n\
t1 load f2\n\
t1 store f0 5\n\
t1 exit o0\n\
log\n\
home\n\
settle\n\
heap\n\
crash lost\n\
show\n\
recover\n\
t1 enter o0\n\
t1 load f2\n\
",
    b"\
formatted 130232\n\
ok\n\
ok\n\
value 31\n\
ok\n\
ok\n\
logged 3\n\
wrote 1\n\
acknowledged 1 0\n\
heap 5 20 30\n\
crashed\n\
image lanes 2 capacity 4000 objects 4 fields 3 size 130232\n\
control a sequence 3 version 2\n\
transient 2\n\
lane t1 start 0 settled 3 logged 3 kept 1\n\
lane t2 start 0 settled 0 logged 0 kept 0\n\
section t1 1 whole records 3\n\
cut 1 0\n\
heap 5 20 30\n\
kept 1 0\n\
undone 0\n\
heap 5 20 30\n\
ok\n\
value 30\n\
",
);

// Two sections, each of which took what the other freed, are acknowledged together, once both have ended.
const IN_A_CIRCLE: Play = (
    b"\
object o0\n\
object o1\n\
object o2\n\
object o3\n\
field f0 o0 o0 10\n\
field f1 o1 o1 20\n\
format 2 4000\n\
t1 enter o0\n\
t1 enter o1\n\
t1 exit o1\n\
t2 enter o2\n\
t2 enter o1\n\
t2 exit o2\n\
t1 enter o2\n\
t1 exit o2\n\
t1 exit o0\n\
log\n\
settle\n\
t2 exit o1\n\
log\n\
settle\n\
",
    b"\
formatted 130208\n\
ok\n\
ok\n\
ok\n\
ok\n\
ok\n\
ok\n\
ok\n\
ok\n\
ok\n\
logged 9\n\
acknowledged 0 0\n\
ok\n\
logged 1\n\
acknowledged 1 1\n\
",
);

// The examples whole, from their text to what they print.
const PLAYS: &[Play] = &[
    NESTED,
    NOT_HELD,
    WAITS,
    WOKEN,
    TWO_LANES,
    TRANSIENT,
    IN_A_CIRCLE,
];

#[test]
fn scripts_are_played(rt: HostRuntime) {
    assert!(rt; first_unplayed(rt.alloc(), PLAYS).is_none());
}
