//! The command words.

ghost use Rattle.std.specs.Prelude.{◌≡◌};
ghost use Rattle.lines.specs.Reading.{takes};
ghost use Rattle.lines.specs.Words.{named};
ghost use Rattle.lines.specs.declared.Fault.TheVariants as fault;
ghost use Rattle.std.specs.Option.{ok_or};

use super::Fault;

/// A command word.
#[derive(Clone, Copy)]
pub enum Word {
    Set,
    Add,
    Replace,
    Cas,
    Get,
    Gets,
    Delete,
    Touch,
    FlushAll,
    Version,
    Quit,
    Stats,
}

impl Word {
    /// Whether a command has so many tokens behind its word.
    pub fn takes(self, args: usize) -> bool
        ensures { result ≡ takes self args }
    {
        match self {
            Word::Set | Word::Add | Word::Replace => args == 4,
            Word::Cas => args == 5,
            Word::Get | Word::Gets => (1..=4).contains(&args),
            Word::Delete => args == 1,
            Word::Touch => args == 2,
            Word::FlushAll | Word::Version | Word::Quit | Word::Stats => args == 0,
        }
    }
}

/// All command words, in the order in which they are tried.
const WORDS: [(&[u8], Word); 12] = [
    (b"set", Word::Set),
    (b"add", Word::Add),
    (b"replace", Word::Replace),
    (b"cas", Word::Cas),
    (b"get", Word::Get),
    (b"gets", Word::Gets),
    (b"delete", Word::Delete),
    (b"touch", Word::Touch),
    (b"flush_all", Word::FlushAll),
    (b"version", Word::Version),
    (b"quit", Word::Quit),
    (b"stats", Word::Stats),
];

impl TryFrom<&[u8]> for Word {
    type Error = Fault;

    ghost try_from_gives = { λ token result. result ≡ ok_or (named token.now) fault.Unknown };

    /// The command word that a token is.
    fn try_from(token: &[u8]) -> Result<Word, Fault> {
        WORDS
            .iter()
            .find(|(text, _)| token == *text)
            .map(|(_, word)| *word)
            .ok_or(Fault::Unknown)
    }
}
