//! What the program writes to standard error.
ghost use Rattle.std.specs.Prelude.{◌≡◌, ◌==◌, if◌then◌else◌};

use crate::words_fault::fault_line;
use std::fmt::Display;
use std::io;
use vet_run::Counts;

/// The noun for so many things.
pub(crate) fn noun(count: u64, one: &'static str, several: &'static str) -> &'static str
    ensures { result.now ≡ (if count == 1 then one.now else several.now) }
{
    if count == 1 { one } else { several }
}

/// Tells the totals of the runs.
pub(crate) fn tell_totals<E: Eprint>(rt: &E, counts: Counts) -> io::Result<()> {
    let Counts {
        records,
        failed,
        unreadable,
    } = counts;
    let (record, line) = (
        noun(records, "record", "records"),
        noun(unreadable, "line", "lines"),
    );
    if unreadable > 0 {
        eprintln!(rt; "{records} {record}, {failed} failed, {unreadable} {line} unreadable")
    } else {
        eprintln!(rt; "{records} {record}, {failed} failed")
    }
}

/// Tells what went wrong.
pub(crate) fn tell<E: Eprint, T: Display>(rt: &E, fault: &T) -> io::Result<()> {
    eprintln!(rt; "vet: {fault}")
}

/// Tells what is wrong with the file of this name.
pub(crate) fn tell_file<E: Eprint, T: Display>(rt: &E, name: &str, fault: &T) -> io::Result<()> {
    eprintln!(rt; "vet: {name}: {fault}")
}

/// Tells that the path of the labels is none.
pub(crate) fn tell_no_path<E: Eprint>(rt: &E, path: &str) -> io::Result<()> {
    eprintln!(rt; "vet: --id {path}: not a path, which begins with `/`")
}

/// Tells that two flags can't stand together.
pub(crate) fn tell_clash<E: Eprint>(rt: &E, first: &str, second: &str) -> io::Result<()> {
    eprintln!(rt; "vet: the argument '--{first}' cannot be used with '--{second}'; try --help")
}

/// Tells what is wrong with the words.
pub(crate) fn tell_words<E: Eprint + AllocGlobal>(rt: &E, error: &clap::Error) -> io::Result<()> {
    let fault = fault_line(rt.alloc(), error)?;
    eprintln!(rt; "vet: {fault}; try --help")
}
