//! What is told of the names of fields, and of the words that assign values to them.

use crate::system_errors::tell;

/// Tells of a name that no field of the image has.
pub(crate) fn tell_unknown<R: Eprint>(rt: &R, image: &str, names: &[&str], place: usize) {
    let name = name_in(word_at(names, place));
    let _ = eprintln!(rt;
        "heapctl: {image}: it has no field '{name}'; 'heapctl dump' tells its fields, by the names of '--schema' or by number"
    );
}

/// Tells of a word that assigns nothing.
pub(crate) fn tell_wrong_word<R: Eprint>(rt: &R, names: &[&str], place: usize) {
    let word = word_at(names, place);
    let _ = eprintln!(rt;
        "heapctl: '{word}': it isn't NAME=VALUE with a number below 2^64; type f0=5, for example"
    );
}

/// Tells of a transient field.
pub(crate) fn tell_transient<R: Eprint>(rt: &R, image: &str, names: &[&str], place: usize) {
    let name = name_in(word_at(names, place));
    let _ = eprintln!(rt;
        "heapctl: {image}: the field '{name}' is transient, and begins with its first value at each open; leave it out"
    );
}

/// Tells that the image would have had another heap than it was to have.
pub(crate) fn tell_other_heap<R: Eprint>(rt: &R, image: &str) {
    tell(
        rt,
        image,
        "setting its fields would have left another heap, and it is left alone; tell the makers of heapctl",
    );
}

// The word at this place.
fn word_at<'a>(names: &[&'a str], place: usize) -> &'a str {
    match names.get(place) {
        Some(word) => *word,
        None => "",
    }
}

// What stands before the first '='.
fn name_in(word: &str) -> &str {
    match word.split_once('=') {
        Some((name, _)) => name,
        None => word,
    }
}
