//! How far a run is.
ghost use Rattle.std.specs.Prelude.{◌≡◌, length};
ghost use Rattle.vet_program.specs.Progress.{grown, line_feeds};

/// How much of the inputs is read.
#[derive(Clone, Copy)]
pub(crate) struct Progress {
    /// How many line feeds.
    pub(crate) lines: u64,
    pub(crate) bytes: u64,
}

fn line_feeds(bytes: &[u8]) -> usize
    ensures { result ≡ line_feeds bytes.now }
{
    bytes.iter().filter(|byte| **byte == b'\n').count()
}

impl Progress {
    /// Before the first byte.
    pub(crate) const NONE: Progress = Progress { lines: 0, bytes: 0 };

    /// How much it is with these bytes behind.
    pub(crate) fn with(self, bytes: &[u8]) -> Progress
        ensures lines { result.lines ≡ grown self.lines (line_feeds bytes.now) }
        ensures bytes { result.bytes ≡ grown self.bytes (length bytes.now) }
    {
        Progress {
            lines: self.lines.saturating_add(line_feeds(bytes) as u64),
            bytes: self.bytes.saturating_add(bytes.len() as u64),
        }
    }
}
