//! What the bytes of a request say.

ghost use Rattle.std.specs.Prelude.{◌≡◌, Some};
ghost use Rattle.lines.specs.Grammar.{ReadsBack, ReadsLawful};
ghost use Rattle.lines.specs.Reading.{reading};
ghost use Rattle.lines.specs.Requests.{Answers};
ghost use Rattle.lines.specs.Tokens.{line_end};

use super::Fault;
use super::line::Line;
use super::request::Request;
use super::tokens::{line_end, split};
use super::words::Word;

/// What the bytes of a request say: the request, or its first fault.
pub fn read<'a>(bytes: &'a [u8]) -> Result<Request<'a>, Fault>
    ensures { Answers bytes.now (reading bytes.now) result }
{
    let end = line_end(bytes).ok_or(Fault::Unknown)?;
    read_line(bytes, end)
}

/// The same for a caller who has asked `line_end` already, so that the line is not searched twice.
pub fn read_line<'a>(bytes: &'a [u8], end: usize) -> Result<Request<'a>, Fault>
    ensures { line_end bytes.now ≡ Some end → Answers bytes.now (reading bytes.now) result }
{
    if end > bytes.len() || bytes.len() - end < 2 {
        return Err(Fault::Unknown);
    }
    let tokens = split(&bytes[..end]).ok_or(Fault::Unknown)?;
    let line = Line { bytes, end, tokens };
    if line.tokens.is_empty() {
        return Err(Fault::Unknown);
    }
    let word = Word::try_from(line.token(0).bytes)?;
    line.request(word)
}

/// What `reading` is, in the words of the protocol: requests that its grammar writes read back as their commands, with any extra spaces,
/// and whatever is read has good keys and each number in its range.
pub fn reading_stands()
    ensures back { ReadsBack }
    ensures lawful { ReadsLawful }
{}
