//! What a request says, as text.

use lines::{Fault, Part, Request, Verb, line_end, read};
use std::fmt;

/// The longest part that is shown whole.
const SHOWN: usize = 20;

/// The bytes of a request, printed as what they say.
#[derive(Drop)]
pub struct Saying<'a>(pub &'a [u8]);

/// A request with all its values.
#[derive(Drop)]
struct Told<'a>(Request<'a>);

/// A verb, with the number of a cas.
#[derive(Drop)]
struct Named(Verb);

/// A part of a request and its place; of a long one the first bytes and its length.
#[derive(Drop)]
struct Spelled<'a>(Part<'a>);

impl fmt::Display for Saying<'_> {
    fn fmt<W: fmt::Write>(&self, f: &mut fmt::Formatter<W>) -> fmt::Result {
        if line_end(self.0).is_none() {
            return write!(f, "no line end");
        }
        match read(self.0) {
            Ok(request) => write!(f, "{}", Told(request)),
            Err(Fault::Unknown) => write!(f, "unknown"),
            Err(Fault::BadLine) => write!(f, "bad line"),
            Err(Fault::BadData) => write!(f, "bad data"),
        }
    }
}

impl fmt::Display for Told<'_> {
    fn fmt<W: fmt::Write>(&self, f: &mut fmt::Formatter<W>) -> fmt::Result {
        match self.0 {
            Request::Get { cas, keys } => {
                write!(f, "{}", if cas { "gets" } else { "get" })?;
                for key in (0..keys.count).filter_map(|i| keys.nth(i)) {
                    write!(f, " {}", Spelled(key))?;
                }
                Ok(())
            }
            Request::Store {
                verb,
                key,
                flags,
                exptime,
                block,
            } => {
                let verb = Named(verb);
                let key = Spelled(key);
                let block = Spelled(block);
                write!(
                    f,
                    "{verb} {key} flags {flags} exptime {exptime} block {block}"
                )
            }
            Request::Delete { key } => write!(f, "delete {}", Spelled(key)),
            Request::Touch { key, exptime } => {
                write!(f, "touch {} exptime {exptime}", Spelled(key))
            }
            Request::FlushAll => write!(f, "flush_all"),
            Request::Version => write!(f, "version"),
            Request::Quit => write!(f, "quit"),
            Request::Stats => write!(f, "stats"),
        }
    }
}

impl fmt::Display for Named {
    fn fmt<W: fmt::Write>(&self, f: &mut fmt::Formatter<W>) -> fmt::Result {
        match self.0 {
            Verb::Set => write!(f, "set"),
            Verb::Add => write!(f, "add"),
            Verb::Replace => write!(f, "replace"),
            Verb::Cas(number) => write!(f, "cas {number}"),
        }
    }
}

impl fmt::Display for Spelled<'_> {
    fn fmt<W: fmt::Write>(&self, f: &mut fmt::Formatter<W>) -> fmt::Result {
        let Part { bytes, at } = self.0;
        for byte in bytes.iter().take(SHOWN) {
            if byte.is_ascii_graphic() {
                write!(f, "{}", char::from(*byte))?;
            } else {
                write!(f, "\\x{byte:02x}")?;
            }
        }
        let len = bytes.len();
        if len > SHOWN {
            write!(f, "..{len}")?;
        }
        write!(f, "@{at}")
    }
}
