//! From a line to its command, or to its fault.
ghost use Rattle.std.specs.Prelude.{◌≡◌, IfOk, IfErr, IfSome, MatchOption};
ghost use Rattle.script_lines.specs.Grammar.{Asks};
ghost use Rattle.script_lines.specs.Orders.{order_of};
ghost use Rattle.script_lines.specs.Lines.{IsText, IsSkipped, AsksOnly, HasFault};

use crate::command::Command;
use crate::error::ScriptErrorKind;
use crate::grammar::parse;

/// How many bytes a line may have, without its end (docs/SCRIPTS.md, "Text").
pub const LONGEST_LINE: usize = 200;

/// The byte with which a line begins that is skipped.
const COMMENT: u8 = b'#';

/// What a line asks for: nothing, where it is skipped.
pub fn read_line(line: &[u8]) -> Result<Option<Command<'_>>, ScriptErrorKind>
    ensures text { IfOk result (λ _. IsText line.now) }
    ensures ok { IfOk result (λ found. MatchOption found (IsSkipped line.now) (λ command. Asks (order_of command) line.now)) }
    ensures read { IfOk result (λ found. IfSome found (λ _. ¬ IsSkipped line.now)) }
    ensures own { IfOk result (λ found. IfSome found (λ command. AsksOnly (order_of command) line.now)) }
    // The fault of a line that can't be read is the one that is told.
    ensures fault { IfErr result (λ kind. HasFault line.now kind) }
{
    if line.len() > LONGEST_LINE {
        return Err(ScriptErrorKind::TooLong);
    }
    if !line.is_ascii() {
        return Err(ScriptErrorKind::NotText);
    }
    if line.is_empty() || line[0] == COMMENT {
        return Ok(None);
    }
    let Some(command) = parse(line) else {
        return Err(ScriptErrorKind::Syntax);
    };
    Ok(Some(command))
}
