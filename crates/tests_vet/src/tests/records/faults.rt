//! Reads that fail, and what is left behind them.
use std::alloc::Global;
use std::io::ErrorKind;
use std::process::Abort;
use streams::{MAX_LINE, Position, RunFault, TakenRecord, next_record};
use tests_support::Slow;

// Whether a read behind these bytes fails so, and the next call takes the rest of the record.
fn goes_on(
    rt: &impl Abort,
    alloc: Global,
    (front, rest): (&[u8], &[u8]),
    kind: ErrorKind,
    fault: RunFault,
    expected: &[u8],
) -> bool {
    let mut position = Position::Outside;
    let mut value = Vec::new(alloc);
    let mut input = Slow {
        bytes: front,
        end: Some(kind),
    };
    let failed = next_record(&mut input, &mut position, &mut value, MAX_LINE);
    let mut others = rest;
    let taken = next_record(&mut others, &mut position, &mut value, MAX_LINE).expect(rt, "memory");
    failed == Err(fault) && taken == TakenRecord::Record && value.as_slice() == expected
}

// The bytes before the read that fails and behind it, and the rest of the record.
const REST: [(&[u8], &[u8], &[u8]); 5] = [
    (b"", b"12 3", b"12"),
    (b"1", b"2 3", b"2"),
    (b"[\"a", b",b\",2]", b",b\""),
    (b"[\"\\", b"\",b\",2]", b"\",b\""),
    (b"{\"a\": [1", b"]}}", b"]}"),
];

#[test]
fn reads_that_fail(rt: HostRuntime) {
    for (front, rest, expected) in REST {
        assert!(rt;
            goes_on(
                &rt,
                rt.alloc(),
                (front, rest),
                ErrorKind::Other,
                RunFault::Input,
                expected
            )
        );
        assert!(rt;
            goes_on(
                &rt,
                rt.alloc(),
                (front, rest),
                ErrorKind::OutOfMemory,
                RunFault::NoMemory,
                expected
            )
        );
    }
}
