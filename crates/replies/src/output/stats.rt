//! The lines of the statistics.

ghost use Rattle.std.specs.List.{flat_map};
ghost use Rattle.replies.specs.Growth.{Room, Wrote};
ghost use Rattle.replies.specs.Render.{stat_line};

use super::Writer;

impl<'a> Writer<'a> {
    /// Writes one figure of the statistics.
    fn stat(&mut self, label: &[u8], n: u64)
        requires { Room (stat_line label.now n) self.old }
        ensures { Wrote (stat_line label.now n) self.old self.new }
    {
        self.put(b"STAT ");
        self.put(label);
        self.put(b" ");
        self.put_number(n);
        self.put(b"\r\n");
    }

    /// Writes a line for each figure, under its name in the protocol.
    pub(super) fn stats(&mut self, figures: &[(&[u8], u64)])
        requires { Room (flat_map (λ f. stat_line f.0.now f.1) figures.now) self.old }
        ensures { Wrote (flat_map (λ f. stat_line f.0.now f.1) figures.now) self.old self.new }
    {
        for (label, n) in figures {
            self.stat(label, *n);
        }
    }
}
