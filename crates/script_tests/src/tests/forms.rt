//! The forms of lines.
use block_disk::Fill;
use heap_model::Lane;
use script_lines::{Command, Step, parse};

// A line, and what it asks for.
type Form = (&'static [u8], Command<'static>);

const FORMS: &[Form] = &[
    (
        b"field  f_0 o.1   field 18446744073709551615",
        Command::Field {
            name: "f_0",
            owner: "o.1",
            guard: "field",
            first: u64::MAX,
            is_transient: false,
        },
    ),
    (
        b"transient transient o0 o1 30",
        Command::Field {
            name: "transient",
            owner: "o0",
            guard: "o1",
            first: 30,
            is_transient: true,
        },
    ),
    (b"object A", Command::Object { name: "A" }),
    (
        b"format 002 4000",
        Command::Format {
            lanes: 2,
            capacity: 4000,
        },
    ),
    (b"log", Command::Log),
    (b"home", Command::Home),
    (b"settle", Command::Settle),
    (b"trim", Command::Trim),
    (b"heap", Command::Heap),
    (b"show", Command::Show),
    (b"recover", Command::Recover),
    (b"upgrade", Command::Upgrade),
];

// The first of these that asks for something else.
fn first_other(forms: &[Form]) -> Option<usize> {
    for (place, (line, command)) in forms.iter().enumerate() {
        if parse(line) != Some(*command) {
            return Some(place);
        }
    }
    None
}

#[test]
fn lines_have_their_forms(rt: HostRuntime) {
    assert!(rt; first_other(FORMS).is_none());
}

// A line, and which thread takes which step.
const STEPS: &[(&[u8], u8, Step<'static>)] = &[
    (b"t1 enter o0", 0, Step::Enter("o0")),
    (b"t032 exit o0", 31, Step::Exit("o0")),
    (b"t2 load f0", 1, Step::Load("f0")),
    (b"t2 store f0 007", 1, Step::Store("f0", 7)),
    (b"t2 wait o0", 1, Step::Wait("o0")),
    (b"t2 resume", 1, Step::Resume),
    (b"t2 notify o0", 1, Step::Notify("o0")),
    (b"t2 notifyall o0", 1, Step::NotifyAll("o0")),
];

// The first of these that asks for something else.
fn first_other_step() -> Option<usize> {
    for (place, (line, thread, step)) in STEPS.iter().enumerate() {
        let command = Command::Step {
            thread: Lane(*thread),
            step: *step,
        };
        if parse(line) != Some(command) {
            return Some(place);
        }
    }
    None
}

#[test]
fn steps_have_their_forms(rt: HostRuntime) {
    assert!(rt; first_other_step().is_none());
}

// A line, and what a crash leaves of what wasn't synced, so many calls back.
const CRASHES: &[(&[u8], Fill, u64)] = &[
    (b"crash lost", Fill::Lost, 0),
    (b"crash kept back 3", Fill::Kept, 3),
    (b"crash a5 back 6", Fill::Byte(165), 6),
];

// The first of these that asks for something else.
fn first_other_crash() -> Option<usize> {
    for (place, (line, fill, back)) in CRASHES.iter().enumerate() {
        let command = Command::Crash {
            fill: *fill,
            back: *back,
        };
        if parse(line) != Some(command) {
            return Some(place);
        }
    }
    None
}

#[test]
fn crashes_have_their_forms(rt: HostRuntime) {
    assert!(rt; first_other_crash().is_none());
}

const NO_FORMS: &[&[u8]] = &[
    b"",
    b" log",
    b"log ",
    b"Log",
    b"log log",
    b"object",
    b"object a b",
    b"object a-b",
    b"object a23456789012345678901234567890123",
    b"field f o g 18446744073709551616",
    b"field f o g +1",
    b"field f o g",
    b"transient f o g",
    b"transient f o g 1 2",
    b"t0 resume",
    b"t33 resume",
    b"t resume",
    b"T1 resume",
    b"t1 resume o0",
    b"t1 store f0",
    b"crash A5",
    b"crash a",
    b"crash a5b",
    b"crash kept back",
    b"crash kept forth 1",
];

// The first of these lines that asks for something.
fn first_command(lines: &[&[u8]]) -> Option<usize> {
    for (place, line) in lines.iter().enumerate() {
        if parse(line).is_some() {
            return Some(place);
        }
    }
    None
}

#[test]
fn other_lines_have_no_form(rt: HostRuntime) {
    assert!(rt; first_command(NO_FORMS).is_none());
}
