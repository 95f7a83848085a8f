// A kind of record, and what can be wrong with the line that tells of one.
ghost use Rattle.std.specs.Prelude.{◌≡◌};
ghost use Rattle.sizing.specs.Fields.{least_of, most_of};

use std::error::Error;
use std::fmt;

// Records of one shape: the bytes of their keys and of their data, and how many there are.
#[derive(Clone, Copy)]
pub struct Kind {
    pub key: u32,
    pub block: u32,
    pub count: u64,
}

// The three numbers of a line.
#[derive(Clone, Copy, Debug, PartialEq, Eq)]
pub enum Field {
    Key,
    Block,
    Count,
}

// What is wrong with a line.
#[derive(Clone, Copy, Debug, PartialEq, Eq)]
pub enum Fault {
    // it is not three words
    Words,
    // a word has something in it that is no digit
    NotNumber(Field),
    // a number is too small or too large for what it counts
    OutOfRange(Field),
}

impl Field {
    // The least number that may stand there.
    pub fn least(self) -> u64
        ensures { result ≡ least_of self }
    {
        match self {
            Field::Key => 1,
            Field::Block => 0,
            Field::Count => 1,
        }
    }

    // The largest number that may stand there.
    pub fn most(self) -> u64
        ensures { result ≡ most_of self }
    {
        match self {
            Field::Key => 250,
            Field::Block => 60_000,
            Field::Count => u64::MAX,
        }
    }
}

impl fmt::Display for Field {
    ghost use Rattle.std.specs.Prelude.{Some};
    ghost use Rattle.sizing.specs.Texts.{field_text};

    ghost output = { λ field. Some (field_text field) };

    fn fmt<W: fmt::Write>(&self, f: &mut fmt::Formatter<W>) -> fmt::Result {
        f.write_str(match self {
            Field::Key => "key-bytes",
            Field::Block => "data-bytes",
            Field::Count => "count",
        })
    }
}

impl fmt::Display for Fault {
    ghost use Rattle.std.specs.Prelude.{Some};
    ghost use Rattle.sizing.specs.Texts.{fault_text};

    ghost output = { λ fault. Some (fault_text fault) };

    fn fmt<W: fmt::Write>(&self, f: &mut fmt::Formatter<W>) -> fmt::Result {
        match self {
            Fault::Words => f.write_str("not three numbers, key-bytes data-bytes count"),
            Fault::NotNumber(field) => write!(f, "{field} is not a number"),
            Fault::OutOfRange(Field::Key) => f.write_str("key-bytes is not from 1 to 250"),
            Fault::OutOfRange(Field::Block) => f.write_str("data-bytes is not from 0 to 60000"),
            Fault::OutOfRange(Field::Count) => {
                f.write_str("count is not from 1 to 18446744073709551615, the most that is counted")
            }
        }
    }
}

impl Error for Fault {}
