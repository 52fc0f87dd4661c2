//! A run byte by byte: with a fault at each byte that is read, or written as an answer or a
//! message.
use std::alloc::Global;
use std::io::ErrorKind;
use std::process::Abort;
use tests_support::{Narrow, Slow};
use vet_run::settings::{Report, Settings};
use vet_run::{Counts, Job, RunFault, Streams, Tally, read_checks, run_records};

const INPUT: &[u8] = b"{\"x\": 2}\n\xff\n1\n{\"x\": 1}\n{}";

// What is written and the messages, by how many bytes of the input are read at least. The last line
// has no line feed, so it is told where the input ends.
const WRITTEN: [(usize, &[u8], &[u8]); 4] = [
    (
        9,
        b"record 1: false\na = false\n  rule: /x == 1 = false\n    - found: 2\n",
        b"",
    ),
    (11, b"", b"vet: record 2: not UTF-8\n"),
    (
        13,
        b"record 3: false\na = false\n  rule: /x == 1 = false\n    - error: nothing at /x\n",
        b"",
    ),
    (
        25,
        b"record 5: false\na = false\n  rule: /x == 1 = false\n    - error: nothing at /x\n",
        b"",
    ),
];

// Faults, and what a run answers where they stand in place of a byte that is read, or written.
const KINDS: [(ErrorKind, RunFault, RunFault); 3] = [
    (ErrorKind::BrokenPipe, RunFault::Input, RunFault::Output),
    (ErrorKind::InvalidData, RunFault::Input, RunFault::Output),
    (
        ErrorKind::OutOfMemory,
        RunFault::NoMemory,
        RunFault::NoMemory,
    ),
];

// What is written before a fault behind this many bytes of the input: as answers, and as messages.
fn written_by(rt: &impl Abort, alloc: Global, read: usize) -> (Vec<u8>, Vec<u8>) {
    let mut answers = Vec::new(alloc);
    let mut told = Vec::new(alloc);
    for (from, answer, message) in WRITTEN {
        if from <= read {
            answers.extend_from_slice(answer).expect(rt, "memory");
            told.extend_from_slice(message).expect(rt, "memory");
        }
    }
    (answers, told)
}

// How a run ends, and what was written, as answers and as messages.
type Ran = (Result<Counts, RunFault>, Vec<u8>, Vec<u8>);

// The run over the input, with room for so many bytes of answers and of messages, behind which a
// writer has a fault of the kind.
fn ran(
    alloc: Global,
    mut input: Slow<'_>,
    (room, message_room): (usize, usize),
    kind: ErrorKind,
) -> Option<Ran> {
    let Ok(checks) = read_checks(alloc, b"a: /x == 1") else {
        return None;
    };
    let settings = Settings::new(Report::First, None);
    let job = Job::new(&checks, &settings);
    let mut tally = Tally::new(alloc, None);
    let output = Narrow {
        got: Vec::new(alloc),
        room,
        kind,
    };
    let messages = Narrow {
        got: Vec::new(alloc),
        room: message_room,
        kind,
    };
    let mut streams = Streams { output, messages };
    let ended = match run_records(alloc, &job, &mut tally, &mut input, &mut streams) {
        Ok(()) => Ok(tally.counts),
        Err(fault) => Err(fault),
    };
    Some((ended, streams.output.got, streams.messages.got))
}

// Whether the run over the front of the input, with a fault behind it, answers that fault, after
// what stands for the lines in the front.
fn fails_reading(
    rt: &impl Abort,
    alloc: Global,
    read: usize,
    kind: ErrorKind,
    fault: RunFault,
) -> bool {
    let front = &INPUT[..read.min(INPUT.len())];
    let (expected, messages) = written_by(rt, alloc, read);
    let input = Slow {
        bytes: front,
        end: Some(kind),
    };
    match ran(alloc, input, (usize::MAX, usize::MAX), kind) {
        Some((ended, answers, told)) => {
            ended == Err(fault) && answers == expected && told == messages
        }
        None => false,
    }
}

// Whether a run that has room for so many bytes in one place answers the fault after these bytes,
// and writes no more in the other than it writes otherwise; or where all have room, ends.
fn is_cut(ran: Ran, whole: &[u8], other_whole: &[u8], room: usize, fault: RunFault) -> bool {
    let (ended, cut, other) = ran;
    let kept = room.min(whole.len());
    let expected = if kept < whole.len() {
        Err(fault)
    } else {
        Ok(COUNTS)
    };
    ended == expected
        && cut.as_slice() == &whole[..kept]
        && other_whole.starts_with(&other)
        && (kept < whole.len() || other.as_slice() == other_whole)
}

// Whether the run over the whole input does so, where this many bytes of answers are written.
fn fails_writing(
    rt: &impl Abort,
    alloc: Global,
    room: usize,
    kind: ErrorKind,
    fault: RunFault,
) -> bool {
    let (whole, messages) = written_by(rt, alloc, usize::MAX);
    match ran(
        alloc,
        Slow {
            bytes: INPUT,
            end: None,
        },
        (room, usize::MAX),
        kind,
    ) {
        Some(ran) => is_cut(ran, &whole, &messages, room, fault),
        None => false,
    }
}

// The same where this many bytes of messages are written.
fn fails_telling(
    rt: &impl Abort,
    alloc: Global,
    room: usize,
    kind: ErrorKind,
    fault: RunFault,
) -> bool {
    let (whole, messages) = written_by(rt, alloc, usize::MAX);
    match ran(
        alloc,
        Slow {
            bytes: INPUT,
            end: None,
        },
        (usize::MAX, room),
        kind,
    ) {
        Some((ended, answers, told)) => {
            is_cut((ended, told, answers), &messages, &whole, room, fault)
        }
        None => false,
    }
}

const COUNTS: Counts = Counts {
    records: 4,
    failed: 3,
    unreadable: 1,
};

#[test]
fn reads_that_fail(rt: HostRuntime) {
    for (kind, fault, _) in KINDS {
        for read in 0..=INPUT.len() {
            let right = fails_reading(&rt, rt.alloc(), read, kind, fault);
            assert!(rt; right, "{kind:?} behind {read} bytes");
        }
    }
}

// How many bytes of answers and of messages there are.
fn lengths(rt: &impl Abort, alloc: Global) -> (usize, usize) {
    let (whole, messages) = written_by(rt, alloc, usize::MAX);
    (whole.len(), messages.len())
}

#[test]
fn writes_that_fail(rt: HostRuntime) {
    let (answers, messages) = lengths(&rt, rt.alloc());
    for (kind, _, fault) in KINDS {
        for room in 0..=answers {
            let right = fails_writing(&rt, rt.alloc(), room, kind, fault);
            assert!(rt; right, "{kind:?} at {room}");
        }
        for room in 0..=messages {
            let right = fails_telling(&rt, rt.alloc(), room, kind, fault);
            assert!(rt; right, "{kind:?} at {room} of the messages");
        }
    }
}
