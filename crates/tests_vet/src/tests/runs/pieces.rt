//! An input that is cut at each line: with `--id` the objects of both pieces join to those of the
//! whole.
use super::combined::RECORDS;
use super::{run_of, settings_of};
use std::alloc::Global;
use std::process::Abort;
use vet_run::settings::Report;

const RULES: &[u8] = b"a: /x exists\nb: any /l (/ == 1)";

// What a run over the records writes behind what was written.
fn write_run(
    rt: &impl Abort,
    alloc: Global,
    report: Report,
    records: &[u8],
    written: &mut Vec<u8>,
) -> bool {
    let settings = settings_of(rt, alloc, report, Some("/x"));
    match run_of(alloc, &settings, RULES, records) {
        Ok((output, messages, Ok(_))) => {
            written.extend_from_slice(&output).expect(rt, "memory");
            messages.is_empty()
        }
        _ => false,
    }
}

// What runs over the pieces write, one behind the other; none where a run fails or tells a message.
fn written(rt: &impl Abort, alloc: Global, report: Report, pieces: &[&[u8]]) -> Option<Vec<u8>> {
    let mut written = Vec::new(alloc);
    for piece in pieces {
        if !write_run(rt, alloc, report, piece, &mut written) {
            return None;
        }
    }
    Some(written)
}

// Whether the outputs of the pieces before and from this byte on join to that of the whole.
fn is_joined(rt: &impl Abort, alloc: Global, report: Report, cut: usize) -> bool {
    let records = RECORDS.as_bytes();
    let (Some(first), Some(second)) = (records.get(..cut), records.get(cut..)) else {
        return false;
    };
    let whole = written(rt, alloc, report, &[records]);
    let joined = written(rt, alloc, report, &[first, second]);
    match (whole, joined) {
        (Some(whole), Some(joined)) => !whole.is_empty() && whole == joined,
        _ => false,
    }
}

#[test]
fn pieces_join_to_one_run(rt: HostRuntime) {
    for report in [
        Report::Json {
            all: true,
            failed: false,
        },
        Report::Json {
            all: false,
            failed: true,
        },
        Report::Lines(false),
    ] {
        for (index, byte) in RECORDS.as_bytes().iter().enumerate() {
            if *byte == b'\n' {
                let cut = index.saturating_add(1);
                assert!(rt;
                    is_joined(&rt, rt.alloc(), report, cut),
                    "{report:?} at {cut}"
                );
            }
        }
    }
}
