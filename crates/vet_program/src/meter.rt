//! The line on a terminal that shows how far a run is.
ghost use Rattle.std.specs.Prelude.{◌↔◌, ◌-◌, ◌≤◌, IsTrue};
ghost use Rattle.std.specs.Time.{instant_nanos};

use crate::progress::Progress;
use crate::shown::Shown;
use std::cell::Cell;
use std::io;
use std::rt::Clock;
use std::time::{Duration, Instant};

// How far the run is, when this was shown last, and whether it stands on the terminal.
#[derive(Clone, Copy)]
struct State {
    progress: Progress,
    told: Instant,
    is_shown: bool,
}

/// The line, which is written again and again in the same place.
#[derive(Drop)]
pub(crate) struct Meter {
    start: Instant,
    whole: Option<u64>,
    state: Cell<State>,
}

// Whether the line that was written then is to be written anew: five times a second at most.
fn is_due(told: Instant, now: Instant) -> bool
    ensures { IsTrue result ↔ (200_000_000 ≤ instant_nanos now - instant_nanos told) }
{
    now.duration_since(told) >= Duration::from_millis(200)
}

impl Meter {
    /// One of inputs of so many bytes, where this is known.
    pub(crate) fn start<E: Clock>(rt: &E, whole: Option<u64>) -> io::Result<Meter> {
        let start = Instant::now(rt)?;
        let state = State {
            progress: Progress::NONE,
            told: start,
            is_shown: false,
        };
        Ok(Meter {
            start,
            whole,
            state: Cell::new(state),
        })
    }

    // Writes the line.
    fn show<E: Eprint>(&self, rt: &E, progress: Progress, now: Instant) {
        let millis = now.duration_since(self.start).as_millis();
        let shown = Shown::of(progress, self.whole, millis);
        // A run goes on without the line.
        let _ = eprint!(rt; "\r{shown}\x1b[K");
    }

    /// Counts what is read, and writes the line where it is due.
    pub(crate) fn count<E: Eprint + Clock>(&self, rt: &E, read: &[u8]) {
        let mut state = self.state.get();
        state.progress = state.progress.with(read);
        if let Ok(now) = Instant::now(rt) {
            if is_due(state.told, now) {
                self.show(rt, state.progress, now);
                state.told = now;
                state.is_shown = true;
            }
        }
        self.state.set(state);
    }

    /// Takes the line away, where it stands on the terminal.
    pub(crate) fn erase<E: Eprint>(&self, rt: &E) {
        let mut state = self.state.get();
        if state.is_shown {
            let _ = eprint!(rt; "\r\x1b[K");
            state.is_shown = false;
            self.state.set(state);
        }
    }
}
