//! `heapctl`: plays a script of threads, crashes and recoveries, in memory or over an image file; makes, shows and recovers image files;
//! lets real threads work on a heap (`docs/SCRIPTS.md`).
//!
//! Reads the program's words, does what they ask for, and tells the caller by the exit status how it went. Faults go to
//! standard error, and all else to standard output.
#![tactic(auto)]

ghost use Rattle.std.specs.Prelude.{◌≡◌};
ghost use Rattle.std.specs.Process.{exit_status};
ghost use Rattle.heapctl_commands.specs.Status.{status_after};

use clap::Error;
use clap::error::ErrorKind;
use disk_file::BackingFile;
use heapctl_commands::{
    FAULT, KeptText, ToldImages, WRONG_INPUT, WorkFault, explain, is_left_by_reader,
    is_something_there, obey, status_of_fault, tell_kept, tell_salvaged,
};
use heapctl_words::{Asked, Words, read_words};
use image_file::{FileImages, Place, Trouble, Watched};
use std::fs::OpenFile;
use std::io::{IsTerminal, Read};
use std::os::fd::AsFd;
use std::process::ExitCode;
use std::rt::{Clock, Env, Files};
use std::sync::Wait;
use std::thread::Threads;
use std::{env, io};

// What the streams lead to.
#[derive(Clone, Copy)]
struct Terminals {
    // A script is typed.
    is_typed: bool,
    // How far workers are, and what takes long, is told on standard error.
    is_told: bool,
}

// What the system says of a descriptor that isn't open (EBADF).
const NOT_OPEN: i32 = 9;

// Does what the words ask for, with the script on standard input, and tells how it went.
fn work<F, R>(rt: &R, terminals: Terminals, asked: &Asked<'_>) -> ExitCode
where
    F: BackingFile + OpenFile + Read + Drop,
    R: Files<File = F> + Input + Print + Eprint + AllocGlobal + Clock + Threads + Wait + Sync,
{
    let words = asked.words;
    if terminals.is_typed && matches!(&words, Words::Run { .. }) {
        let _ = eprintln!(rt;
            "heapctl: a script is read from the terminal, up to Ctrl-D, and then played; 'heapctl --help' tells of other words"
        );
    }
    let trouble = Trouble::none();
    // A line that has no form is told of a strict script.
    let mut reader = KeptText::new(rt.alloc(), rt.reader(), is_strict(&words));
    let mut writer = Watched::new(io::writer(rt), Place::Output, &trouble);
    let was_there = is_something_there(rt, &words);
    let mut images = ToldImages::new(rt, FileImages::new(rt, &trouble), terminals.is_told);
    let ended = obey(
        rt,
        &mut images,
        terminals.is_told,
        &trouble,
        words,
        &asked.names,
        &mut reader,
        &mut writer,
    );
    // Who tells of a fault may look at the image, which is claimed until here.
    drop(images);
    match &ended {
        Ok(()) => {
            tell_kept(rt, &words, was_there);
            tell_salvaged(rt, &words);
        }
        Err(fault) => {
            if !is_left_by_reader(&trouble) {
                let _ = eprintln!(rt; "heapctl: {fault}");
                explain(rt, &words, &asked.names, reader.text(), fault, &trouble);
            }
        }
    }
    code_of(&ended)
}

fn is_strict(words: &Words<'_>) -> bool {
    match words {
        Words::Run { is_strict, .. } => *is_strict,
        _ => false,
    }
}

// The exit status that tells how it went.
fn code_of(ended: &Result<(), WorkFault>) -> ExitCode
    // The program ends with status 0 where its words are obeyed, and with no other fault's status than that of its own.
    ensures { exit_status result ≡ status_after ended.now }
{
    match ended {
        Ok(()) => ExitCode::SUCCESS,
        Err(fault) => ExitCode::from(status_of_fault(fault)),
    }
}

// Prints what `clap` answers to wrong words, to `--help` and to `--version`.
fn print_answer<R: Print + Eprint>(rt: &R, answer: &Error) -> ExitCode {
    // Want of memory is no fault of the words, and has no text of its own.
    if answer.kind() == ErrorKind::OutOfMemory {
        return out_of_memory(rt);
    }
    let printed = answer.print(rt);
    if answer.use_stderr() {
        return ExitCode::from(WRONG_INPUT);
    }
    match printed {
        Ok(()) => ExitCode::SUCCESS,
        Err(error) => {
            if error.kind() != io::ErrorKind::BrokenPipe {
                let _ = eprintln!(rt; "heapctl: fault");
                let _ = eprintln!(rt; "heapctl: standard output: {error}");
            }
            ExitCode::from(FAULT)
        }
    }
}

fn out_of_memory<R: Eprint>(rt: &R) -> ExitCode {
    let _ = eprintln!(rt; "heapctl: no memory");
    ExitCode::from(FAULT)
}

// There was no memory for the words, or one is no text, which is a wrong word.
fn no_words<R: Eprint>(rt: &R, error: &io::Error) -> ExitCode {
    if error.kind() == io::ErrorKind::OutOfMemory {
        return out_of_memory(rt);
    }
    let _ = eprintln!(rt; "heapctl: the words are not text");
    let _ = eprintln!(rt;
        "heapctl: a word isn't UTF-8; rename the file, or name it by a link whose path is"
    );
    ExitCode::from(WRONG_INPUT)
}

fn run<F, R>(rt: &R, terminals: Terminals) -> ExitCode
where
    F: BackingFile + OpenFile + Read + Drop,
    R: Env + Files<File = F> + Input + Print + Eprint + AllocGlobal + Clock + Threads + Wait + Sync,
{
    let alloc = rt.alloc();
    let arguments = match env::args(rt) {
        Ok(arguments) => arguments,
        Err(error) => return no_words(rt, &error),
    };
    let Ok(texts) = arguments.collect::<Vec<String>>(alloc) else {
        return out_of_memory(rt);
    };
    match read_words(alloc, texts.as_slice()) {
        Ok(asked) => {
            let code = work(rt, terminals, &asked);
            drop(asked);
            code
        }
        Err(answer) => print_answer(rt, &answer),
    }
}

// Whether the stream is closed. A file that is opened next would get its number, and what is written to the stream.
fn is_closed<S: AsFd>(stream: &S) -> bool {
    match stream.as_fd().try_clone_to_owned() {
        Ok(_) => false,
        Err(error) => error.raw_os_error() == Some(NOT_OPEN),
    }
}

fn main(rt: HostRuntime) -> ExitCode {
    if is_closed(&rt.stdin()) || is_closed(&rt.stdout()) || is_closed(&rt.stderr()) {
        let _ = eprintln!(&rt; "heapctl: fault");
        let _ = eprintln!(&rt;
            "heapctl: a standard stream is closed; open it, on /dev/null if it isn't wanted"
        );
        return ExitCode::from(FAULT);
    }
    let terminals = Terminals {
        is_typed: rt.stdin().is_terminal(),
        is_told: rt.stderr().is_terminal(),
    };
    run(&rt, terminals)
}
