//! A process whose run is watched on a terminal.
ghost use Rattle.std.specs.Prelude.{◌≡◌, None, false};

use crate::length::length_of;
use crate::meter::Meter;
use std::alloc::Alloc;
use std::fmt::Display;
use std::io;
use std::io::{Eprint, Print};
use std::rt::{Clock, Files};

/// A process, and the line that shows how far its run is, where one is wanted. The line is taken
/// away before anything else is written.
#[derive(Drop)]
pub(crate) struct Watched<'a, E> {
    pub(crate) rt: &'a E,
    pub(crate) meter: Option<Meter>,
}

impl<'a, E> Watched<'a, E> {
    /// The process before a run over the files of these names, or over standard input where there
    /// is none, and whether the line is wanted. Without a clock there is no line.
    pub(crate) fn start(rt: &'a E, is_wanted: bool, names: Option<&[&str]>) -> Watched<'a, E>
    where
        E: Files + Clock,
        ensures { is_wanted ≡ false → result.meter ≡ None }
    {
        if !is_wanted {
            return Watched { rt, meter: None };
        }
        let whole = length_of(rt, names.unwrap_or(&["-"]));
        Watched {
            rt,
            meter: Meter::start(rt, whole).ok(),
        }
    }

    /// Takes the line away.
    pub(crate) fn erase(&self)
    where
        E: Eprint,
    {
        if let Some(meter) = &self.meter {
            meter.erase(self.rt);
        }
    }
}

impl<E: Alloc> Alloc for Watched<'_, E> {
    type A = E::A;

    fn alloc(&self) -> E::A {
        self.rt.alloc()
    }
}

impl<E: Print + Eprint> Print for Watched<'_, E> {
    fn print<D: Display + Drop>(&self, value: D) -> io::Result<()> {
        self.erase();
        self.rt.print(value)
    }

    fn println<D: Display + Drop>(&self, value: D) -> io::Result<()> {
        self.erase();
        self.rt.println(value)
    }

    fn write_all(&self, bytes: &[u8]) -> io::Result<()> {
        self.erase();
        self.rt.write_all(bytes)
    }

    fn write_some(&self, bytes: &[u8]) -> io::Result<usize> {
        self.erase();
        self.rt.write_some(bytes)
    }
}

impl<E: Eprint> Eprint for Watched<'_, E> {
    fn eprint<D: Display + Drop>(&self, value: D) -> io::Result<()> {
        self.erase();
        self.rt.eprint(value)
    }

    fn eprintln<D: Display + Drop>(&self, value: D) -> io::Result<()> {
        self.erase();
        self.rt.eprintln(value)
    }
}
