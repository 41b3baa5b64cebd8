//! The words for each refusal, as scripts and reports print them.
use guards::SchemaError;
use heap_model::Lane;
use std::alloc::Global;
use undo_log::LogError;

fn schema_error_reads(alloc: Global, error: SchemaError, words: &str) -> bool {
    match format!(in alloc; "{error}") {
        Ok(text) => text.as_str() == words,
        Err(_) => false,
    }
}

fn log_error_reads(alloc: Global, error: LogError, words: &str) -> bool {
    match format!(in alloc; "{error}") {
        Ok(text) => text.as_str() == words,
        Err(_) => false,
    }
}

fn schema_errors_read(alloc: Global, cases: &[(SchemaError, &str)]) -> bool {
    for (error, words) in cases {
        if !schema_error_reads(alloc, *error, words) {
            return false;
        }
    }
    true
}

#[test]
fn refused_declarations_have_their_words(rt: HostRuntime) {
    let cases = [
        (SchemaError::Empty, "empty"),
        (SchemaError::DoubleName, "double name"),
        (SchemaError::UnknownObject, "unknown"),
        (SchemaError::TooMany, "too many"),
        (SchemaError::NoMemory, "no memory"),
    ];
    assert!(rt; schema_errors_read(rt.alloc(), &cases));
}

fn log_errors_read(alloc: Global, cases: &[(LogError, &str)]) -> bool {
    for (error, words) in cases {
        if !log_error_reads(alloc, *error, words) {
            return false;
        }
    }
    true
}

#[test]
fn refused_logs_have_their_words(rt: HostRuntime) {
    let lane = Lane(1);
    let cases = [
        (LogError::Fault, "fault"),
        (LogError::LogFull { lane }, "log full"),
        (LogError::BadRecord { lane, place: 1998 }, "bad record"),
        (LogError::NoMemory, "no memory"),
    ];
    assert!(rt; log_errors_read(rt.alloc(), &cases));
}
