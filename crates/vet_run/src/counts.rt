//! How many lines runs took.
ghost use Rattle.std.specs.Prelude.{◌≡◌, IfSome};
ghost use Rattle.vet_run.specs.Counting.{status_of, CountsOne};

/// How many lines runs took.
#[derive(Clone, Copy, Debug, PartialEq, Eq)]
pub struct Counts {
    /// Lines on which a record stands.
    pub records: u64,
    /// Records that break a rule.
    pub failed: u64,
    /// Lines on which something stands that is no record. Each is told by a message.
    pub unreadable: u64,
}

impl Counts {
    /// Of no line.
    pub const NONE: Counts = Counts {
        records: 0,
        failed: 0,
        unreadable: 0,
    };

    /// The status of a process after the runs: 2 where a line is unreadable, else 1 where a record
    /// breaks a rule, else 0.
    pub fn status(self) -> u8
        ensures { result ≡ status_of self }
    {
        if self.unreadable > 0 {
            2
        } else if self.failed > 0 {
            1
        } else {
            0
        }
    }

    // Counts one line more: whether its record keeps every rule, or none where no record stands on
    // it. A blank line is not counted. The answer is none where 64 bits hold no more.
    pub(crate) fn count(self, held: Option<bool>, blank: bool) -> Option<Counts>
        ensures { IfSome result (CountsOne held blank self) }
    {
        let Counts {
            records,
            failed,
            unreadable,
        } = self;
        match held {
            Some(true) => Some(Counts {
                records: records.checked_add(1)?,
                failed,
                unreadable,
            }),
            Some(false) => Some(Counts {
                records: records.checked_add(1)?,
                failed: failed.checked_add(1)?,
                unreadable,
            }),
            None if blank => Some(self),
            None => Some(Counts {
                records,
                failed,
                unreadable: unreadable.checked_add(1)?,
            }),
        }
    }
}
