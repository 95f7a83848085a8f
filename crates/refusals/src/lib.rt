// Every refusal that a call can answer, each with the number that the caller sees.
#![tactic(auto)]

ghost use Rattle.std.specs.Prelude.{◌≡◌, Some};
ghost use Rattle.refusals.specs.Numbers.{number_of};
ghost use Rattle.refusals.specs.Words.{rule_of, refusal_text};

use std::error::Error;
use std::fmt;

// The number of a variant is the one by which callers know the refusal.
#[derive(Clone, Copy, PartialEq, Eq, Debug)]
pub enum Refusal {
    // the first size and the percent make no lawful plan
    Plan = 1,
    // a length of memory, or a count of rows or slots, is not lawful
    Memory = 2,
    // the request's policy has another number than the opening's
    PolicyDiffers = 3,
    // a caller number above 4,194,303
    CallerTooLarge = 4,
    // the caller has an open session
    CallerOpen = 5,
    // 64 sessions are open
    SessionsFull = 6,
    // the caller has no open session
    CallerNotOpen = 7,
    // the reply buffer has fewer than 18,432 bytes
    ReplyShort = 8,
    // no CR LF in the first 2,048 bytes of a request
    NoLineEnd = 9,
    // 2^60 requests were answered
    Exhausted = 10,
}

impl Refusal {
    // The number by which callers know this refusal.
    pub fn number(self) -> u8
        ensures { result ≡ number_of self }
    {
        self as u8
    }

    // The rule that was not kept, in words.
    pub fn rule(self) -> &'static str
        ensures { result.now ≡ rule_of self }
    {
        match self {
            Refusal::Plan => {
                "first size a multiple of 8 from 48 to 1024, percent 110 to 200, at most 32 classes"
            }
            Refusal::Memory => "a table has 1 to 256 pages",
            Refusal::PolicyDiffers => "a request has the policy that its table was opened with",
            Refusal::CallerTooLarge => "a caller's number is at most 4194303",
            Refusal::CallerOpen => "a caller has at most one open session",
            Refusal::SessionsFull => "at most 64 sessions are open",
            Refusal::CallerNotOpen => "a request is of a caller with an open session",
            Refusal::ReplyShort => "a reply buffer has at least 18432 bytes",
            Refusal::NoLineEnd => "a request has CR LF in its first 2048 bytes",
            Refusal::Exhausted => "a table answers at most 2^60 requests",
        }
    }
}

impl From<Refusal> for u8 {
    ghost from_gives = { λ refusal number. number ≡ number_of refusal };

    fn from(refusal: Refusal) -> u8 {
        refusal.number()
    }
}

impl fmt::Display for Refusal {
    ghost output = { λ refusal. Some (refusal_text refusal) };

    fn fmt<W: fmt::Write>(&self, f: &mut fmt::Formatter<W>) -> fmt::Result {
        write!(f, "refused with number {}: {}", self.number(), self.rule())
    }
}

impl Error for Refusal {}
