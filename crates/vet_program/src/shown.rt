//! What is shown of how far a run is.
ghost use Rattle.std.specs.Prelude.{◌≡◌, ◌-◌, ◌^◌, min, option_map};
ghost use Rattle.vet_program.specs.Progress.{left_of, rate_of, share_of};

use crate::progress::Progress;
use crate::tell::noun;
use std::fmt;

/// How many lines are read, how many percent that is of the inputs, where their length is known,
/// how many lines a second, and how many seconds are left at that rate.
#[derive(Clone, Copy)]
pub(crate) struct Shown {
    lines: u64,
    share: Option<u128>,
    rate: u128,
    left: Option<u128>,
}

// How many percent so many bytes are of the whole.
fn share_of(bytes: u64, whole: u64) -> u128
    ensures { result ≡ share_of bytes whole }
{
    let whole = whole.max(1) as u128;
    (bytes as u128 * 100 / whole).min(100)
}

// How many seconds the rest of the whole takes, where so many bytes took these milliseconds.
fn left_of(bytes: u64, whole: u64, millis: u64) -> u128
    ensures { result ≡ left_of bytes whole millis }
{
    let rest = whole.saturating_sub(bytes) as u128;
    rest * millis as u128 / (bytes.max(1) as u128 * 1000)
}

impl Shown {
    /// What is shown so many milliseconds behind the start.
    pub(crate) fn of(progress: Progress, whole: Option<u64>, millis: u128) -> Shown
        ensures lines { result.lines ≡ progress.lines }
        ensures share { result.share ≡ option_map (share_of progress.bytes) whole }
        ensures rate { result.rate ≡ rate_of progress.lines millis }
        ensures left { result.left
            ≡ option_map (λ all. left_of progress.bytes all (min millis (2 ^ 64 - 1))) whole }
    {
        let share = match whole {
            Some(whole) => Some(share_of(progress.bytes, whole)),
            None => None,
        };
        let capped = u64::try_from(millis).unwrap_or(u64::MAX);
        let left = match whole {
            Some(whole) => Some(left_of(progress.bytes, whole, capped)),
            None => None,
        };
        Shown {
            lines: progress.lines,
            share,
            rate: progress.lines as u128 * 1000 / millis.max(1),
            left,
        }
    }
}

impl fmt::Display for Shown {
    ghost use Rattle.std.specs.Prelude.{Some};
    ghost use Rattle.vet_program.specs.Progress.{shown_text};

    ghost output = { λ shown. Some (shown_text shown) };

    fn fmt<W: fmt::Write>(&self, f: &mut fmt::Formatter<W>) -> fmt::Result {
        let Shown {
            lines,
            share,
            rate,
            left,
        } = *self;
        let noun = noun(lines, "line", "lines");
        match share {
            Some(share) => write!(f, "{lines} {noun}, {share} %, {rate} a second")?,
            None => write!(f, "{lines} {noun}, {rate} a second")?,
        }
        match left {
            Some(left) if left < 120 => write!(f, ", {left} s left"),
            Some(left) => {
                let minutes = left / 60;
                write!(f, ", {minutes} min left")
            }
            None => Ok(()),
        }
    }
}
