//! From a text to its lines.
ghost use Rattle.std.specs.Prelude.{◌≡◌, ◌<◌, ◌∷◌, length};
ghost use Rattle.script_lines.specs.Lines.{EndedLines, lines_of};
ghost use Rattle.script_lines.specs.Cutting.{end_length, first_line, other_lines};

const LINE_FEED: u8 = b'\n';

const CARRIAGE_RETURN: u8 = b'\r';

/// The first line, without its end, and what follows it: the other lines.
pub fn cut_line(text: &[u8]) -> (&[u8], &[u8])
    // A text is cut into its first line and the rest.
    ensures lines { 0 < length text.now → lines_of text.now ≡ result.0.now ∷ lines_of result.1.now }
    ensures first { result.0.now ≡ first_line text.now }
    ensures others { result.1.now ≡ other_lines text.now }
    ensures shorter { 0 < length text.now → length result.1.now < length text.now }
{
    cut_at_end(text)
}

// What stands before and after the first end of a line.
fn cut_at_end(text: &[u8]) -> (&[u8], &[u8])
    ensures first { result.0.now ≡ first_line text.now }
    ensures others { result.1.now ≡ other_lines text.now }
    ensures shorter { 0 < length text.now → length result.1.now < length text.now }
{
    let mut at = 0;
    while at < text.len() && end_len(&text[at..]) == 0 {
        at += 1;
    }
    let end = at + end_len(&text[at..]);
    (&text[..at], &text[end..])
}

// How many bytes of a line's end stand at the front.
fn end_len(bytes: &[u8]) -> usize
    ensures { result ≡ end_length bytes.now }
{
    match bytes {
        [LINE_FEED, ..] => 1,
        [CARRIAGE_RETURN, LINE_FEED, ..] => 2,
        _ => 0,
    }
}

/// How many bytes the lines have that are ended.
pub(crate) fn ended_len(text: &[u8]) -> usize
    ensures { EndedLines text.now result }
{
    let mut len = text.len();
    while len > 0 && text[len - 1] != LINE_FEED {
        len -= 1;
    }
    len
}
