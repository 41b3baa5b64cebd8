//! The text of an answer.
ghost use Rattle.std.specs.Prelude.{◌≡◌, ◌+◌, ◌++◌, IfOk, OnOk, codes, string_bytes};
ghost use Rattle.std.specs.Fmt.{decimal};
ghost use Rattle.inspect.specs.StudyText.{study_text};
ghost use Rattle.script_play.specs.Texts.{text_of, text_of_report, list_line, refused_line, why_refused, place_of, place_text, woke_line, woken_threads};

use heap_model::Lane;
use inspect::{write_report, write_study};
use script_machine::{Answer, ImageStudy, Refusal, Report};
use std::alloc::{AllocError, Global};
use std::fmt::Write;

/// What a line prints that was answered so: whole lines, or nothing.
pub fn text(alloc: Global, answer: &Answer) -> Result<Vec<u8>, AllocError>
    // An answer prints the documented text.
    ensures { IfOk result (λ text. text.items ≡ text_of answer.now) }
{
    match answer {
        Answer::Silent => Ok(Vec::new(alloc)),
        Answer::Done => line(alloc, "ok\n"),
        Answer::Formatted(size) => numbered(alloc, "formatted ", *size),
        Answer::Waiting => line(alloc, "waiting\n"),
        Answer::Woke(lanes) => woke(alloc, lanes),
        Answer::Value(value) => numbered(alloc, "value ", *value),
        Answer::Logged(count) => numbered(alloc, "logged ", *count),
        Answer::Wrote(count) => numbered(alloc, "wrote ", *count),
        Answer::Acknowledged(counts) => list(alloc, "acknowledged", counts),
        Answer::Heap(values) => list(alloc, "heap", values),
        Answer::Crashed => line(alloc, "crashed\n"),
        Answer::Shown(study) => shown(alloc, study),
        Answer::Recovered(report) => recovered(alloc, report),
        Answer::Refused(refusal) => refused(alloc, refusal),
    }
}

fn line(alloc: Global, words: &str) -> Result<Vec<u8>, AllocError>
    ensures { IfOk result (λ text. text.items ≡ words.now) }
{
    Ok(String::from_str(alloc, words)?.into_bytes())
}

// The line of a number after a word and a space.
fn numbered(alloc: Global, word: &str, number: u64) -> Result<Vec<u8>, AllocError>
    ensures { IfOk result (λ text. text.items ≡ word.now ++ decimal number ++ codes "\n") }
{
    Ok(format!(in alloc; "{word}{number}\n")?.into_bytes())
}

fn list(alloc: Global, word: &str, numbers: &[u64]) -> Result<Vec<u8>, AllocError>
    ensures { IfOk result (λ text. text.items ≡ list_line word.now numbers.now) }
{
    let mut text = String::new(alloc);
    push_list(&mut text, word, numbers)?;
    Ok(text.into_bytes())
}

// Adds the line of a word and numbers.
fn push_list(text: &mut String, word: &str, numbers: &[u64]) -> Result<(), AllocError>
    ensures { OnOk result (string_bytes text.new ≡ string_bytes text.old ++ list_line word.now numbers.now) }
{
    text.push_str(word)?;
    for number in numbers {
        write!(text, " {number}")?;
    }
    text.push_str("\n")
}

fn woke(alloc: Global, lanes: &[Lane]) -> Result<Vec<u8>, AllocError>
    ensures { IfOk result (λ text. text.items ≡ woke_line lanes.now) }
{
    if lanes.is_empty() {
        return line(alloc, "none\n");
    }
    let mut text = String::new(alloc);
    text.push_str("woke")?;
    push_threads(&mut text, lanes)?;
    text.push_str("\n")?;
    Ok(text.into_bytes())
}

// Adds the threads of these lanes.
fn push_threads(text: &mut String, lanes: &[Lane]) -> Result<(), AllocError>
    ensures { OnOk result (string_bytes text.new ≡ string_bytes text.old ++ woken_threads lanes.now) }
{
    for lane in lanes {
        let thread = thread_number(*lane);
        write!(text, " t{thread}")?;
    }
    Ok(())
}

fn shown(alloc: Global, study: &ImageStudy) -> Result<Vec<u8>, AllocError>
    ensures { IfOk result (λ text. text.items ≡ study_text study.now) }
{
    let mut text = Vec::new(alloc);
    match write_study(alloc, study.study(), &mut text) {
        Ok(()) => Ok(text),
        Err(_) => Err(AllocError),
    }
}

fn recovered(alloc: Global, report: &Report) -> Result<Vec<u8>, AllocError>
    ensures { IfOk result (λ text. text.items ≡ text_of_report report.now) }
{
    let mut text = Vec::new(alloc);
    match write_report(&report.found, &report.heap, report.lanes, &mut text) {
        Ok(()) => Ok(text),
        Err(_) => Err(AllocError),
    }
}

// The thread of a lane, by the number that texts show.
fn thread_number(lane: Lane) -> u64
    ensures { result ≡ lane.0 + 1 }
{
    lane.0 as u64 + 1
}

fn refused(alloc: Global, refusal: &Refusal) -> Result<Vec<u8>, AllocError>
    ensures { IfOk result (λ text. text.items ≡ refused_line refusal.now) }
{
    let mut text = String::new(alloc);
    text.push_str("refused ")?;
    text.push_str(words_of(refusal))?;
    push_place(&mut text, place_in(refusal))?;
    text.push_str("\n")?;
    Ok(text.into_bytes())
}

// Adds the record that is to blame, if there is one.
fn push_place(text: &mut String, place: Option<(Lane, u64)>) -> Result<(), AllocError>
    ensures { OnOk result (string_bytes text.new ≡ string_bytes text.old ++ place_text place) }
{
    let Some((lane, place)) = place else {
        return Ok(());
    };
    let thread = thread_number(lane);
    write!(text, " t{thread} {place}")
}

fn words_of(refusal: &Refusal) -> &'static str
    ensures { result.now ≡ why_refused refusal.now }
{
    match refusal {
        Refusal::State => "state",
        Refusal::Lane => "lane",
        Refusal::Unknown => "unknown",
        Refusal::Waiting => "waiting",
        Refusal::NotWaiting => "not waiting",
        Refusal::InSet => "in set",
        Refusal::Held => "held",
        Refusal::NotHeld => "not held",
        Refusal::Worn => "worn",
        Refusal::TooLong => "too long",
        Refusal::LogFull => "log full",
        Refusal::Unwritten => "unwritten",
        Refusal::Empty => "empty",
        Refusal::BadHeader => "bad header",
        Refusal::Back => "back",
        Refusal::DoubleName => "double name",
        Refusal::TooMany => "too many",
        Refusal::NotFormatted => "not formatted",
        Refusal::TooSmall => "too small",
        Refusal::NoControl => "no control",
        Refusal::BadControl => "bad control",
        Refusal::OldVersion => "old version",
        Refusal::BadRecord { .. } => "bad record",
        Refusal::IllegalLog { .. } => "illegal log",
    }
}

fn place_in(refusal: &Refusal) -> Option<(Lane, u64)>
    ensures { result ≡ place_of refusal.now }
{
    match refusal {
        Refusal::BadRecord { lane, place } | Refusal::IllegalLog { lane, place } => {
            Some((*lane, *place))
        }
        _ => None,
    }
}
