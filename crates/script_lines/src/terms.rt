//! The words that stand for a name, a number, a thread, or what a crash leaves.
ghost use Rattle.std.specs.Prelude.{◌≡◌};
ghost use Rattle.std.specs.Char.{is_ascii_digit};
ghost use Rattle.std.specs.List.{list_all};
ghost use Rattle.std.specs.Option.{option_map};
ghost use Rattle.std.specs.Str.{bytes_eq, IsAscii};
ghost use Rattle.script_lines.specs.Grammar.{is_name, is_name_byte};
ghost use Rattle.script_lines.specs.Reading.{name_in, number_in, thread_in, fill_in, byte_in, hex_in};

use block_disk::Fill;
use heap_model::{LANES, Lane};

/// How many bytes a name may have (docs/SCRIPTS.md, "Text").
const LONGEST_NAME: usize = 32;

/// Whether a word is this one.
pub(crate) fn spells(word: &[u8], text: &str) -> bool
    ensures { result ≡ bytes_eq word.now text.now }
{
    word == text.as_bytes()
}

/// A name: 1 to 32 letters, digits, `_` or `.`.
pub(crate) fn name(word: &[u8]) -> Option<&str>
    ensures { option_map (λ text. text.now) result ≡ name_in word.now }
{
    if !is_a_name(word) {
        return None;
    }
    Some(ascii(word))
}

fn is_a_name(word: &[u8]) -> bool
    ensures { result ≡ is_name word.now }
{
    !word.is_empty() && word.len() <= LONGEST_NAME && are_in_names(word)
}

fn are_in_names(bytes: &[u8]) -> bool
    ensures { result ≡ list_all is_name_byte bytes.now }
{
    bytes.iter().all(|byte| is_in_names(*byte))
}

fn is_in_names(byte: u8) -> bool
    ensures { result ≡ is_name_byte byte }
{
    byte.is_ascii_alphanumeric() || byte == b'_' || byte == b'.'
}

/// A number: decimal digits, below 2^64. Leading zeros are allowed, a sign isn't.
pub(crate) fn number(word: &[u8]) -> Option<u64>
    ensures { result ≡ number_in word.now }
{
    if !are_digits(word) {
        return None;
    }
    ascii(word).parse::<u64>().ok()
}

fn are_digits(bytes: &[u8]) -> bool
    ensures { result ≡ list_all is_ascii_digit bytes.now }
{
    bytes.iter().all(|byte| byte.is_ascii_digit())
}

fn ascii(word: &[u8]) -> &str
    requires { IsAscii word.now }
    ensures { result.now ≡ word.now }
{
    str::from_utf8(word).unwrap()
}

/// A thread: `t` and a number from 1 to 32, that of its lane plus one.
pub(crate) fn thread(word: &[u8]) -> Option<Lane>
    ensures { result ≡ thread_in word.now }
{
    let (letter, digits) = word.split_first()?;
    if *letter != b't' {
        return None;
    }
    let thread = number(digits)?;
    if thread == 0 || thread > LANES as u64 {
        return None;
    }
    Some(Lane((thread - 1) as u8))
}

/// What a crash leaves: `lost`, `kept`, or two lower-case hexadecimal digits.
pub(crate) fn fill(word: &[u8]) -> Option<Fill>
    ensures { result ≡ fill_in word.now }
{
    if spells(word, "lost") {
        return Some(Fill::Lost);
    }
    if spells(word, "kept") {
        return Some(Fill::Kept);
    }
    byte(word)
}

fn byte(word: &[u8]) -> Option<Fill>
    ensures { result ≡ byte_in word.now }
{
    match word {
        [high, low] => Some(Fill::Byte(16 * hex_digit(*high)? + hex_digit(*low)?)),
        _ => None,
    }
}

fn hex_digit(digit: u8) -> Option<u8>
    ensures { result ≡ hex_in digit }
{
    match digit {
        b'0'..=b'9' => Some(digit - b'0'),
        b'a'..=b'f' => Some(digit - b'a' + 10),
        _ => None,
    }
}
