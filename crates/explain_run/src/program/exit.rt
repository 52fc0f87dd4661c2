//! How a call of the program ends.
ghost use Rattle.std.specs.Prelude.{◌≡◌, IsTrue};
ghost use Rattle.std.specs.Io.KnownBytes.{Appends};
ghost use Rattle.explain_run.specs.declared.program.exit.Exit.TheVariants.{NoMemory};
ghost use Rattle.explain_run.specs.Exits.{status_of, message_of, exit_of_fault};

use std::alloc::AllocError;
use std::io::Write;
use streams::RunFault;

/// How a call of the program ends.
#[derive(Clone, Copy, Debug, PartialEq, Eq)]
pub enum Exit {
    /// Every line was an item.
    AllItems,
    /// Some line was not.
    NotAllItems,
    /// The words are wrong.
    Usage,
    /// A regular expression was refused.
    PatternRefused,
    /// The check is nested deeper than `MAX_DEPTH`.
    TooDeep,
    /// Memory was refused.
    NoMemory,
    /// Reading or writing failed.
    InputOrOutput,
}

impl From<AllocError> for Exit {
    ghost from_gives = { λ _ end. end ≡ NoMemory };

    fn from(_error: AllocError) -> Exit {
        Exit::NoMemory
    }
}

impl Exit {
    /// The status of the process.
    pub fn status(self) -> u8
        ensures { result ≡ status_of self }
    {
        match self {
            Exit::AllItems => 0,
            Exit::NotAllItems => 1,
            Exit::Usage | Exit::PatternRefused | Exit::TooDeep => 2,
            Exit::NoMemory | Exit::InputOrOutput => 3,
        }
    }

    // What standard error says of it.
    fn message(self) -> &'static str
        ensures { result.now ≡ message_of self }
    {
        match self {
            Exit::AllItems | Exit::NotAllItems => "",
            Exit::Usage => "usage: explain between LO HI\nusage: explain text TOKEN..\n",
            Exit::PatternRefused => "explain: pattern refused\n",
            Exit::TooDeep => "explain: check nested too deep\n",
            Exit::NoMemory => "explain: no memory\n",
            Exit::InputOrOutput => "explain: input or output fault\n",
        }
    }

    // Writes the message, and says whether it was written whole.
    pub(crate) fn report<M: Write>(self, messages: &mut M) -> bool
        ensures { IsTrue result
            → Appends (M.contents messages.old) (M.contents messages.new) (message_of self) }
    {
        messages.write_all(self.message().as_bytes()).is_ok()
    }
}

// The end of a run that had a fault.
pub(crate) fn exit_of(fault: RunFault) -> Exit
    ensures { result ≡ exit_of_fault fault }
{
    match fault {
        RunFault::NoMemory => Exit::NoMemory,
        RunFault::Input | RunFault::Output => Exit::InputOrOutput,
    }
}
