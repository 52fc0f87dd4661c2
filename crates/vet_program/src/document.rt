//! The document at the end of the runs.
use crate::rule_file::RuleFile;
use std::io;
use std::io::ErrorKind;
use vet_run::settings::Report;
use vet_run::{Tally, junit};

/// Writes the bytes to standard output, and says whether anything reads them.
pub(crate) fn write_whole<E: Print>(rt: &E, bytes: &[u8]) -> io::Result<bool> {
    match rt.write_all(bytes) {
        Ok(()) => Ok(true),
        Err(error) if error.kind() == ErrorKind::BrokenPipe => Ok(false),
        Err(error) => Err(error),
    }
}

/// Writes the document of runs by the rules of the file, where the report is one, and says whether
/// anything reads it.
pub(crate) fn write_document<E: Print + AllocGlobal>(
    rt: &E,
    report: Report,
    file: RuleFile<'_>,
    tally: &Tally,
    all_read: bool,
) -> io::Result<bool> {
    let Report::JUnit = report else {
        return Ok(true);
    };
    let document = junit(rt.alloc(), file.path, file.rules, tally, all_read)?;
    write_whole(rt, &document)
}
