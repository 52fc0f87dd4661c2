//! Records that are cut at each byte, and records with a byte changed: how many lines hold no
//! record, and that the other records are told as before.
use super::{run_of, settings_of};
use std::alloc::Global;
use std::process::Abort;
use vet_run::Counts;
use vet_run::settings::Report;

const BEFORE: &[u8] = b"{\"id\": \"p\", \"x\": 1}\n";

const AFTER: &[u8] = b"{\"id\": \"q\", \"x\": 2}\n";

const TOLD_BEFORE: &[u8] =
    b"record 1 (\"p\"): false\na = false\n  rule: /x == 5 = false\n    - found: 1\n";

// How long `record 3` is, or that of another line below the tenth.
const PLACE: usize = 8;

// What is told of the last line, behind its place.
const TOLD_AFTER: &[u8] = b" (\"q\"): false\na = false\n  rule: /x == 5 = false\n    - found: 2\n";

const RECORD: &[u8] = b"{\"x\":-1}";

// The line between the two others.
fn between(rt: &impl Abort, alloc: Global, middle: &[u8]) -> Vec<u8> {
    let mut lines = Vec::new(alloc);
    lines.extend_from_slice(BEFORE).expect(rt, "memory");
    lines.extend_from_slice(middle).expect(rt, "memory");
    lines.push(b'\n').expect(rt, "memory");
    lines.extend_from_slice(AFTER).expect(rt, "memory");
    lines
}

// What a run over the lines writes, and its messages, with its counts.
fn ran(rt: &impl Abort, alloc: Global, middle: &[u8]) -> Option<(Vec<u8>, Vec<u8>, Counts)> {
    let lines = between(rt, alloc, middle);
    let settings = settings_of(rt, alloc, Report::First, Some("/id"));
    let Ok((output, messages, ended)) = run_of(alloc, &settings, b"a: /x == 5", &lines) else {
        return None;
    };
    match ended {
        Ok(counts) => Some((output, messages, counts)),
        Err(_) => None,
    }
}

fn count_of(bytes: &[u8], byte: u8) -> u64 {
    let mut count = 0u64;
    for one in bytes {
        if *one == byte {
            count = count.saturating_add(1);
        }
    }
    count
}

// Whether so many lines between the others hold a record, and so many are unreadable, each with its
// message, the first with this one; and the records before and after are told as they are without
// them.
fn is_counted(
    rt: &impl Abort,
    alloc: Global,
    middle: &[u8],
    between: u64,
    unreadable: u64,
    message: &[u8],
) -> bool {
    let Some((output, messages, counts)) = ran(rt, alloc, middle) else {
        return false;
    };
    let read = between.saturating_add(2);
    let expected = Counts {
        records: read,
        failed: read,
        unreadable,
    };
    let others = TOLD_BEFORE
        .len()
        .saturating_add(PLACE)
        .saturating_add(TOLD_AFTER.len());
    let is_alone = output.len() == others;
    counts == expected
        && output.starts_with(TOLD_BEFORE)
        && output.ends_with(TOLD_AFTER)
        && output.len() >= others
        && is_alone == (between == 0)
        && count_of(&messages, b'\n') == unreadable
        && (unreadable == 0 || messages.starts_with(message))
}

// The same of one line, which holds a record where it is not unreadable.
fn is_told(rt: &impl Abort, alloc: Global, middle: &[u8], unreadable: u64) -> bool {
    let between = if unreadable == 0 { 1 } else { 0 };
    is_counted(rt, alloc, middle, between, unreadable, b"vet: record 2: ")
}

#[test]
fn records_that_are_cut(rt: HostRuntime) {
    for len in 1..RECORD.len() {
        let right = is_told(&rt, rt.alloc(), &RECORD[..len], 1);
        assert!(rt; right, "{len} bytes");
    }
    assert!(rt; is_told(&rt, rt.alloc(), RECORD, 0));
}

// A byte, and how many lines are unreadable where it stands in place of each byte of the record.
const CHANGED: [(u8, [u64; 8]); 8] = [
    (b' ', [1, 1, 0, 1, 1, 0, 1, 1]),
    (b'"', [1, 0, 1, 0, 1, 1, 1, 1]),
    (b'\\', [1, 1, 1, 1, 1, 1, 1, 1]),
    (b'0', [1, 1, 0, 1, 1, 1, 0, 1]),
    (b'.', [1, 1, 0, 1, 1, 1, 1, 1]),
    (b'e', [1, 1, 0, 1, 1, 1, 1, 1]),
    (b'}', [1, 1, 0, 1, 1, 1, 1, 0]),
    (255, [1, 1, 1, 1, 1, 1, 1, 1]),
];

fn with_byte(rt: &impl Abort, alloc: Global, place: usize, byte: u8) -> Vec<u8> {
    let mut changed = Vec::new(alloc);
    for (index, old) in RECORD.iter().enumerate() {
        changed
            .push(if index == place { byte } else { *old })
            .expect(rt, "memory");
    }
    changed
}

#[test]
fn records_with_a_byte_changed(rt: HostRuntime) {
    for (byte, counts) in CHANGED {
        for (place, unreadable) in counts.iter().enumerate() {
            let changed = with_byte(&rt, rt.alloc(), place, byte);
            let right = is_told(&rt, rt.alloc(), &changed, *unreadable);
            assert!(rt; right, "{byte} at {place}");
        }
    }
}

// How many lines are unreadable where a line feed stands in place of each byte of the record, and
// the first message: the line that is then blank is told by none.
const BROKEN: [(u64, &[u8]); 8] = [
    (1, b"vet: record 3: "),
    (2, b"vet: record 2: "),
    (2, b"vet: record 2: "),
    (2, b"vet: record 2: "),
    (2, b"vet: record 2: "),
    (2, b"vet: record 2: "),
    (2, b"vet: record 2: "),
    (1, b"vet: record 2: "),
];

#[test]
fn records_on_two_lines(rt: HostRuntime) {
    for (place, (unreadable, message)) in BROKEN.iter().enumerate() {
        let broken = with_byte(&rt, rt.alloc(), place, b'\n');
        let right = is_counted(&rt, rt.alloc(), &broken, 0, *unreadable, message);
        assert!(rt; right, "{place}");
    }
}

const BLANK: [&[u8]; 5] = [b"", b"\r", b" ", b"\t \r", b"\n\n \n"];

#[test]
fn lines_that_are_blank(rt: HostRuntime) {
    for lines in BLANK {
        let right = is_counted(&rt, rt.alloc(), lines, 0, 0, b"");
        assert!(rt; right, "{lines:?}");
    }
}

// Opening and closing brackets, as many of each.
fn nested(rt: &impl Abort, alloc: Global, depth: usize) -> Vec<u8> {
    let mut record = Vec::new(alloc);
    for _ in 0..depth {
        record.push(b'[').expect(rt, "memory");
    }
    for _ in 0..depth {
        record.push(b']').expect(rt, "memory");
    }
    record
}

// Whether the line holds no record, by this message.
fn is_rejected(rt: &impl Abort, alloc: Global, line: &[u8], message: &[u8]) -> bool {
    match ran(rt, alloc, line) {
        Some((_, messages, counts)) => { counts.unreadable == 1 && messages.as_slice() == message }
        None => false,
    }
}

const TOO_DEEP: &[u8] = b"vet: record 2: not JSON: nested more than 127 deep\n";

#[test]
fn records_that_nest_too_deep(rt: HostRuntime) {
    let alloc = rt.alloc();
    let deepest = nested(&rt, alloc, 127);
    assert!(rt; is_told(&rt, alloc, &deepest, 0));
    for depth in [128, 10_000] {
        let record = nested(&rt, alloc, depth);
        assert!(rt; is_rejected(&rt, alloc, &record, TOO_DEEP), "{depth}");
    }
}

// Brackets in a text, and those behind the place of another fault, do not count.
#[test]
fn other_brackets(rt: HostRuntime) {
    let alloc = rt.alloc();
    let mut record = Vec::new(alloc);
    record.extend_from_slice(b"[\"\\\"").expect(&rt, "memory");
    record
        .extend_from_slice(nested(&rt, alloc, 128).as_slice())
        .expect(&rt, "memory");
    record.extend_from_slice(b"\"").expect(&rt, "memory");
    assert!(rt; !is_rejected(&rt, alloc, &record, TOO_DEEP));
    assert!(rt; is_told(&rt, alloc, &record, 1));
    let mut record = vec![in alloc; b'x'].expect(&rt, "memory");
    record
        .extend_from_slice(nested(&rt, alloc, 128).as_slice())
        .expect(&rt, "memory");
    assert!(rt; !is_rejected(&rt, alloc, &record, TOO_DEEP));
    assert!(rt; is_told(&rt, alloc, &record, 1));
}
