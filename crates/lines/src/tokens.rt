//! The line of a request, and its tokens.

ghost use Rattle.std.specs.Prelude.{◌≡◌, ◌<◌, ◌≤◌, ◌≢◌, [], ◌∷◌, length, drop, MatchOption, slice_index, slice_range};
ghost use Rattle.lines.specs.Spans.{Splits};
ghost use Rattle.lines.specs.Tokens.{line_end, tokens};

use arrayvec::ArrayVec;

/// A line lies with its CR LF within so many bytes.
const LINE_LIMIT: usize = 2048;

/// Where the line of a request ends: the place of the CR of its first CR LF.
pub fn line_end(bytes: &[u8]) -> Option<usize>
    ensures { result ≡ line_end bytes.now }
{
    let near = bytes.len().min(LINE_LIMIT);
    bytes[..near]
        .array_windows::<2>()
        .position(|[cr, lf]| *cr == b'\r' && *lf == b'\n')
}

/// The most tokens that a line may have.
const TOKEN_LIMIT: usize = 6;

/// A part of a line, by its place and its length.
#[derive(Clone, Copy, Default)]
pub struct Span {
    pub at: usize,
    pub len: usize,
}

/// The tokens of a line, in their order.
pub type Tokens = ArrayVec<Span, TOKEN_LIMIT>;

/// Where the next token begins, at a place or behind it.
fn token_start(line: &[u8], at: usize) -> Option<usize>
    requires { at ≤ length line.now }
    ensures { MatchOption result (tokens (drop at line.now) ≡ []) (λ start. (at ≤ start) × (start < length line.now) × (slice_index line.now start ≢ 32) × (tokens (drop at line.now) ≡ tokens (drop start line.now))) }
{
    let gap = line[at..].iter().position(|byte| *byte != b' ')?;
    Some(at + gap)
}

/// Where the token that begins at `at` ends.
fn token_end(line: &[u8], at: usize) -> usize
    requires inside { at < length line.now }
    requires token { slice_index line.now at ≢ 32 }
    ensures beyond { at < result }
    ensures within { result ≤ length line.now }
    ensures cut { tokens (drop at line.now) ≡ slice_range line.now at result ∷ tokens (drop result line.now) }
{
    let ahead = &line[at..];
    let space = ahead.iter().position(|byte| *byte == b' ');
    at + space.unwrap_or(ahead.len())
}

/// The tokens of a line, unless they are more than any command has: one too many is refused where it begins.
pub fn split(line: &[u8]) -> Option<Tokens>
    ensures { MatchOption result (6 < length (tokens line.now)) (λ t. Splits line.now t.items) }
{
    let mut found = ArrayVec::new();
    let mut at = 0;
    while let Some(start) = token_start(line, at) {
        if found.is_full() {
            return None;
        }
        at = token_end(line, start);
        found.push(Span {
            at: start,
            len: at - start,
        });
    }
    Some(found)
}
