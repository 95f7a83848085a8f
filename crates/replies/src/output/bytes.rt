//! Bytes and numbers, as they come.

ghost use Rattle.replies.specs.Growth.{Room, Wrote};

use super::Writer;
use itoa::{Buffer, Integer};

impl<'a> Writer<'a> {
    /// Copies `bytes` behind what is written.
    pub(super) fn put(&mut self, bytes: &[u8])
        requires { Room bytes.now self.old }
        ensures { Wrote bytes.now self.old self.new }
    {
        let from = self.len;
        let to = from + bytes.len();
        self.out[from..to].copy_from_slice(bytes);
        self.len = to;
    }

    /// Writes `n` in decimal, with no leading zeros.
    pub(super) fn put_number<N: Integer>(&mut self, n: N)
        requires { Room (N.text n) self.old }
        ensures { Wrote (N.text n) self.old self.new }
    {
        let mut buffer = Buffer::new();
        self.put(buffer.format(n).as_bytes());
    }
}
