//! The two worked runs and a filter, byte by byte: with a fault at each byte that is read or
//! written, and cut short.
use super::runs::{NUMBERS, SEVEN};
use super::words::check_of;
use explain_run::{RunFault, TextCheck, filter_lines, run_between, run_text};
use std::alloc::Global;
use std::io::ErrorKind;
use std::process::Abort;
use tests_support::{Narrow, Slow};

const BLANK: &str = "\
line 1: true
(var.is_empty() || var.contains(a)) = true
  left: var.is_empty() = true
    - var: \n";

// A run over numbers between 5 and 10, or over texts by the check; or, with the wanted verdict, a
// filter by it.
#[derive(Clone, Copy)]
struct Run<'a> {
    check: Option<&'a TextCheck>,
    wanted: Option<bool>,
    input: &'a [u8],
    whole: &'a [u8],
}

impl Run<'_> {
    fn ended(
        &self,
        alloc: Global,
        reader: &mut Slow<'_>,
        writer: &mut Narrow,
    ) -> Result<bool, RunFault> {
        match (self.check, self.wanted) {
            (Some(check), Some(wanted)) => {
                let counts = filter_lines(alloc, check, wanted, reader, writer)?;
                Ok(counts.not_utf8 == 0)
            }
            (Some(check), None) => run_text(alloc, check, reader, writer),
            (None, _) => run_between(alloc, 5, 10, reader, writer),
        }
    }
}

// Faults, and what a run answers where they stand in place of a byte that is read, or written.
const KINDS: [(ErrorKind, RunFault, RunFault); 3] = [
    (ErrorKind::BrokenPipe, RunFault::Input, RunFault::Output),
    (ErrorKind::InvalidData, RunFault::Input, RunFault::Output),
    (
        ErrorKind::OutOfMemory,
        RunFault::NoMemory,
        RunFault::NoMemory,
    ),
];

// Whether the run with room for `room` bytes writes them, and ends as it should.
fn ends_after(
    alloc: Global,
    run: Run<'_>,
    room: usize,
    kind: ErrorKind,
    expected: Result<bool, RunFault>,
) -> bool {
    let mut reader = Slow {
        bytes: run.input,
        end: None,
    };
    let mut writer = Narrow {
        got: Vec::new(alloc),
        room,
        kind,
    };
    let ended = run.ended(alloc, &mut reader, &mut writer);
    ended == expected && Some(writer.got.as_slice()) == run.whole.get(..room)
}

// The run is right over one byte at a time, and where each write in turn fails it answers that.
fn writes<R: Abort + AllocGlobal>(rt: &R, run: Run<'_>) {
    let whole = run.whole.len();
    for (kind, _, fault) in KINDS {
        for room in 0..whole {
            assert!(rt;
                ends_after(rt.alloc(), run, room, kind, Err(fault)),
                "at {room}"
            );
        }
        assert!(rt;
            ends_after(rt.alloc(), run, whole, kind, Ok(true)),
            "at {whole}"
        );
    }
}

// How many bytes are written for the lines that end within this many bytes of the input.
fn answered(lines: &[(usize, usize)], read: usize) -> usize {
    let mut written = 0usize;
    for (line, block) in lines {
        if *line <= read {
            written = *block;
        }
    }
    written
}

// Whether the run over a prefix of the input, whose end is a fault, answers that after this many
// bytes.
fn fails_behind(
    alloc: Global,
    run: Run<'_>,
    prefix: &[u8],
    kind: ErrorKind,
    fault: RunFault,
    written: usize,
) -> bool {
    let mut reader = Slow {
        bytes: prefix,
        end: Some(kind),
    };
    let mut writer = Narrow {
        got: Vec::new(alloc),
        room: usize::MAX,
        kind,
    };
    let ended = run.ended(alloc, &mut reader, &mut writer);
    ended == Err(fault) && Some(writer.got.as_slice()) == run.whole.get(..written)
}

// Where each read in turn fails, the run answers that, after the blocks of the lines that it read.
fn reads<R: Abort + AllocGlobal>(rt: &R, run: Run<'_>, lines: &[(usize, usize)]) {
    for (kind, fault, _) in KINDS {
        for read in 0..=run.input.len() {
            let (prefix, written) = (&run.input[..read], answered(lines, read));
            assert!(rt;
                fails_behind(rt.alloc(), run, prefix, kind, fault, written),
                "at {read}"
            );
        }
    }
}

#[test]
fn a_run_over_numbers(rt: HostRuntime) {
    let run = Run {
        check: None,
        wanted: None,
        input: b"7\n11\n4\n",
        whole: NUMBERS.as_bytes(),
    };
    writes(&rt, run);
    // Where each line ends, and where its block does.
    reads(&rt, run, &[(2, 115), (5, 198), (7, 277)])
}

#[test]
fn a_run_over_texts(rt: HostRuntime) {
    let check = check_of(&rt, rt.alloc(), &["empty", "trim", "contains=a", "or"]);
    let run = Run {
        check: Some(&check),
        wanted: None,
        input: b"  \n",
        whole: BLANK.as_bytes(),
    };
    writes(&rt, run);
    reads(&rt, run, &[(3, BLANK.len())])
}

// Of three lines, the last without its line feed, the first and the last hold an `a`.
#[test]
fn a_filter(rt: HostRuntime) {
    let check = check_of(&rt, rt.alloc(), &["contains=a"]);
    let run = Run {
        check: Some(&check),
        wanted: Some(true),
        input: b"ab\nb\r\na",
        whole: b"ab\na",
    };
    writes(&rt, run);
    reads(&rt, run, &[(3, 3)])
}

// The block of 1 between 5 and 10.
const ONE: &str =
    "1: false\n(var >= 5 && var <= 10) = false\n  left: var >= 5 = false\n    - var: 1\n";

// An input that is cut short, and whether the block of 7 and that of 1 are written.
const PREFIXES: [(&[u8], &str, &str); 6] = [
    (b"", "", ""),
    (b"7", SEVEN, ""),
    (b"7\n", SEVEN, ""),
    (b"7\n1", SEVEN, ONE),
    (b"7\n1\r", SEVEN, ONE),
    (b"7\n1\r\n", SEVEN, ONE),
];

// Whether the run over the input ends well and writes both texts.
fn writes_both(rt: &impl Abort, alloc: Global, input: &[u8], first: &str, second: &str) -> bool {
    let whole = format!(in alloc; "{first}{second}").expect(rt, "memory");
    writes_whole(alloc, input, whole.as_bytes())
}

fn writes_whole<'a>(alloc: Global, input: &'a [u8], whole: &'a [u8]) -> bool {
    let run = Run {
        check: None,
        wanted: None,
        input,
        whole,
    };
    ends_after(alloc, run, whole.len(), ErrorKind::BrokenPipe, Ok(true))
}

#[test]
fn runs_over_each_prefix(rt: HostRuntime) {
    for (input, first, second) in PREFIXES {
        assert!(rt;
            writes_both(&rt, rt.alloc(), input, first, second),
            "{input:?}"
        );
    }
}
