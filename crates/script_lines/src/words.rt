//! The words of a line.
ghost use Rattle.std.specs.Prelude.{◌≡◌, ◌↔◌, length, IfSome, IsNone};
ghost use Rattle.std.specs.Option.{option_map};
ghost use Rattle.script_lines.specs.Cutting.{word_of, after_word, after_spaces, words_in, list_of};

/// The byte between two words.
const SPACE: u8 = b' ';

/// No form has more words than `field` with its four.
const MOST_WORDS: usize = 5;

/// The words of a line, which has [`MOST_WORDS`] at most.
#[derive(Clone, Copy)]
pub(crate) enum Words<'a> {
    One(&'a [u8]),
    Two(&'a [u8], &'a [u8]),
    Three(&'a [u8], &'a [u8], &'a [u8]),
    Four(&'a [u8], &'a [u8], &'a [u8], &'a [u8]),
    Five(&'a [u8], &'a [u8], &'a [u8], &'a [u8], &'a [u8]),
}

/// The words of a line that has one to five, with one or more spaces between two, and none elsewhere.
pub(crate) fn split_words(line: &[u8]) -> Option<Words<'_>>
    ensures { option_map list_of result ≡ words_in MOST_WORDS line.now }
{
    let (first, rest) = first_word(line)?;
    if rest.is_empty() {
        return Some(Words::One(first));
    }
    let (second, rest) = first_word(skip_spaces(rest))?;
    if rest.is_empty() {
        return Some(Words::Two(first, second));
    }
    let (third, rest) = first_word(skip_spaces(rest))?;
    if rest.is_empty() {
        return Some(Words::Three(first, second, third));
    }
    let (fourth, rest) = first_word(skip_spaces(rest))?;
    if rest.is_empty() {
        return Some(Words::Four(first, second, third, fourth));
    }
    let (fifth, rest) = first_word(skip_spaces(rest))?;
    if rest.is_empty() {
        return Some(Words::Five(first, second, third, fourth, fifth));
    }
    None
}

// The word with which the bytes begin, and what comes from the first space on.
fn first_word(bytes: &[u8]) -> Option<(&[u8], &[u8])>
    ensures cut { IfSome result (λ cut. (cut.0.now ≡ word_of bytes.now) × (cut.1.now ≡ after_word bytes.now)) }
    ensures none { IsNone result ↔ (length (word_of bytes.now) ≡ 0) }
{
    let mut at = 0;
    while at < bytes.len() && bytes[at] != SPACE {
        at += 1;
    }
    if at == 0 {
        return None;
    }
    Some((&bytes[..at], &bytes[at..]))
}

// What follows the spaces at the front.
fn skip_spaces(bytes: &[u8]) -> &[u8]
    ensures { result.now ≡ after_spaces bytes.now }
{
    let mut at = 0;
    while at < bytes.len() && bytes[at] == SPACE {
        at += 1;
    }
    &bytes[at..]
}
