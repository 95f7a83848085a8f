//! What a reply is made of: the fixed lines, and the figures that `stats` lists.

ghost use Rattle.std.specs.Prelude.{◌≡◌};
ghost use Rattle.replies.specs.Render.{words};

/// The replies that are one fixed line.
#[derive(Clone, Copy)]
pub enum Text {
    Error,
    BadLine,
    BadData,
    TooLarge,
    OutOfMemory,
    Stored,
    NotStored,
    Exists,
    NotFound,
    Deleted,
    Touched,
    Done,
    Version,
}

impl Text {
    // A match and no Display: the writer takes bytes, and the words are what a client matches.
    /// The words of a fixed line.
    pub fn words(self) -> &'static [u8]
        ensures { result.now ≡ words self }
    {
        match self {
            Text::Error => b"ERROR",
            Text::BadLine => b"CLIENT_ERROR bad command line format",
            Text::BadData => b"CLIENT_ERROR bad data chunk",
            Text::TooLarge => b"SERVER_ERROR object too large for cache",
            Text::OutOfMemory => b"SERVER_ERROR out of memory storing object",
            Text::Stored => b"STORED",
            Text::NotStored => b"NOT_STORED",
            Text::Exists => b"EXISTS",
            Text::NotFound => b"NOT_FOUND",
            Text::Deleted => b"DELETED",
            Text::Touched => b"TOUCHED",
            Text::Done => b"OK",
            Text::Version => b"VERSION 1",
        }
    }
}

/// What `stats` lists, each figure under its name in the protocol.
#[derive(Clone, Copy)]
pub struct Figures {
    pub limit_pages: u64,
    pub free_pages: u64,
    pub curr_items: u64,
    pub total_items: u64,
    pub replaced: u64,
    pub deleted: u64,
    pub flushed: u64,
    pub expired: u64,
    pub evictions: u64,
    pub dropped: u64,
    pub get_hits: u64,
    pub get_misses: u64,
    pub curr_connections: u64,
    pub hash_slots: u64,
}
