//! A line with its tokens, read by its word.

ghost use Rattle.lines.specs.Spans.{CutAt};

use super::fields::{exptime, is_key, number};
use super::request::{KEY_COUNT, Keys, Part, Request};
use super::tokens::{Span, Tokens};
use super::words::Word;
use super::{Fault, Verb};

/// The largest flags: 32 bits.
const FLAGS_TOP: u64 = 4_294_967_295;

/// The longest data block.
const BLOCK_TOP: u64 = 60_000;

/// The largest cas number: 64 bits.
const CAS_TOP: u64 = 18_446_744_073_709_551_615;

/// A line with its tokens, in the bytes that it was cut from; its CR stands at `end`.
#[derive(Drop)]
pub struct Line<'a> {
    pub bytes: &'a [u8],
    pub end: usize,
    pub tokens: Tokens,
    ghost cut: { CutAt bytes.now end tokens.items },
}

impl<'a> Line<'a> {
    ghost use Rattle.std.specs.Prelude.{◌≡◌, ◌<◌, ◌≤◌, [], Some, length, slice_index_or};
    ghost use Rattle.lines.specs.Lines.{toks, args, rest, Writes, KeyRead, BlockRead, Ended};
    ghost use Rattle.lines.specs.Numbers.{number_of, exptime_of, good_keys};
    ghost use Rattle.lines.specs.Requests.{Answers, Lies, Placed, asked};
    ghost use Rattle.lines.specs.Reading.{alone, by_word, storage, retrieval, worded};
    ghost use Rattle.lines.specs.declared.words.Word.TheVariants as word;

    // That there is an i-th token is a clause and no type: how many there are hangs on the word.
    /// The i-th token; the word is token 0.
    pub fn token(&self, i: usize) -> Part<'a>
        requires known { i < length self.now.tokens.items }
        ensures text { result.bytes.now ≡ slice_index_or (toks self.now) i [] }
        ensures placed { Lies self.now.bytes.now result }
    {
        let span = self.tokens[i];
        let at = span.at;
        let end = at + span.len;
        Part {
            bytes: &self.bytes[at..end],
            at,
        }
    }

    /// The i-th token as a key.
    fn key(&self, i: usize) -> Result<Part<'a>, Fault>
        requires known { i < length self.now.tokens.items }
        ensures { KeyRead self.now i result }
    {
        let token = self.token(i);
        if is_key(token.bytes) {
            Ok(token)
        } else {
            Err(Fault::BadLine)
        }
    }

    // This and `exptime` are a token and a test each: one function for both, of a closure, is no shorter, and its clause says less.
    /// The i-th token as a number of at most `most` digits and at most `top`.
    fn number(&self, i: usize, most: usize, top: u64) -> Result<u64, Fault>
        requires known { i < length self.now.tokens.items }
        ensures { Writes (number_of most top (slice_index_or (toks self.now) i [])) result }
    {
        number(self.token(i).bytes, most, top).ok_or(Fault::BadLine)
    }

    /// The i-th token as an exptime.
    fn exptime(&self, i: usize) -> Result<i32, Fault>
        requires known { i < length self.now.tokens.items }
        ensures { Writes (exptime_of (slice_index_or (toks self.now) i [])) result }
    {
        exptime(self.token(i).bytes).ok_or(Fault::BadLine)
    }

    /// The data block of so many bytes, if just that and its CR LF stand behind the line.
    fn block(&self, size: usize) -> Result<Part<'a>, Fault>
        ensures { BlockRead self.now size result }
    {
        let at = self.end + 2;
        match self.bytes[at..].strip_suffix(b"\r\n") {
            Some(bytes) if bytes.len() == size => Ok(Part { bytes, at }),
            _ => Err(Fault::BadData),
        }
    }

    /// Whether nothing stands behind the line.
    fn alone(&self) -> Result<(), Fault>
        ensures { Ended self.now result }
    {
        if self.bytes.len() == self.end + 2 {
            Ok(())
        } else {
            Err(Fault::BadData)
        }
    }

    /// A storage command with this verb.
    fn storage(&self, verb: Verb) -> Result<Request<'a>, Fault>
        requires enough { 5 ≤ length self.now.tokens.items }
        ensures { Answers self.now.bytes.now (storage (Some verb) (args self.now) (rest self.now)) result }
    {
        let key = self.key(1)?;
        let flags = self.number(2, 10, FLAGS_TOP)? as u32;
        let exptime = self.exptime(3)?;
        let size = self.number(4, 5, BLOCK_TOP)? as usize;
        let block = self.block(size)?;
        Ok(Request::Store {
            verb,
            key,
            flags,
            exptime,
            block,
        })
    }

    /// A cas: a storage command with its number last.
    fn cas(&self) -> Result<Request<'a>, Fault>
        requires enough { 6 ≤ length self.now.tokens.items }
        ensures { Answers self.now.bytes.now (worded word.Cas (args self.now) (rest self.now)) result }
    {
        let number = self.number(5, 20, CAS_TOP)?;
        self.storage(Verb::Cas(number))
    }

    /// Whether each token behind the word is a good key.
    fn has_keys(&self) -> bool
        ensures { result ≡ good_keys (args self.now) }
    {
        (1..self.tokens.len()).all(|i| is_key(self.token(i).bytes))
    }

    /// A get or, with `cas`, a gets.
    fn retrieval(&self, cas: bool) -> Result<Request<'a>, Fault>
        requires some { 2 ≤ length self.now.tokens.items }
        requires few { length self.now.tokens.items ≤ 5 }
        ensures { Answers self.now.bytes.now (retrieval cas (args self.now) (rest self.now)) result }
    {
        if !self.has_keys() {
            return Err(Fault::BadLine);
        }
        self.alone()?;
        let found = &self.tokens[1..];
        let count = found.len();
        let mut spans = [Span::default(); KEY_COUNT];
        spans[..count].copy_from_slice(found);
        let line = &self.bytes[..self.end];
        let keys = Keys { line, spans, count };
        Ok(Request::Get { cas, keys })
    }

    /// A delete.
    fn delete(&self) -> Result<Request<'a>, Fault>
        requires enough { 2 ≤ length self.now.tokens.items }
        ensures { Answers self.now.bytes.now (worded word.Delete (args self.now) (rest self.now)) result }
    {
        let key = self.key(1)?;
        self.alone()?;
        Ok(Request::Delete { key })
    }

    /// A touch.
    fn touch(&self) -> Result<Request<'a>, Fault>
        requires enough { 3 ≤ length self.now.tokens.items }
        ensures { Answers self.now.bytes.now (worded word.Touch (args self.now) (rest self.now)) result }
    {
        let key = self.key(1)?;
        let exptime = self.exptime(2)?;
        self.alone()?;
        Ok(Request::Touch { key, exptime })
    }

    /// A command that is its word alone.
    fn bare(&self, request: Request<'a>) -> Result<Request<'a>, Fault>
        requires placed { Placed self.now.bytes.now request }
        ensures { Answers self.now.bytes.now (alone (rest self.now) (asked request.entry)) result }
    {
        self.alone()?;
        Ok(request)
    }

    // This match on the word stands in place of a table of functions by word: a word without an arm does not compile.
    /// The request of a line with this word.
    pub fn request(&self, word: Word) -> Result<Request<'a>, Fault>
        requires some { 1 ≤ length self.now.tokens.items }
        ensures { Answers self.now.bytes.now (by_word (Some word) (args self.now) (rest self.now)) result }
    {
        if !word.takes(self.tokens.len() - 1) {
            return Err(Fault::Unknown);
        }
        match word {
            Word::Set => self.storage(Verb::Set),
            Word::Add => self.storage(Verb::Add),
            Word::Replace => self.storage(Verb::Replace),
            Word::Cas => self.cas(),
            Word::Get => self.retrieval(false),
            Word::Gets => self.retrieval(true),
            Word::Delete => self.delete(),
            Word::Touch => self.touch(),
            Word::FlushAll => self.bare(Request::FlushAll),
            Word::Version => self.bare(Request::Version),
            Word::Quit => self.bare(Request::Quit),
            Word::Stats => self.bare(Request::Stats),
        }
    }
}
