//! A program over records, as the comment of `streams` begins it.
use std::alloc::Global;
use std::io::{BufRead, Write};
use streams::{MAX_LINE, Position, RunFault, TakenRecord, next_record, write_bytes};

// Writes the records, and says whether each was as long as it may be and each array ended.
fn copy<R: BufRead + Drop, W: Write + Drop>(
    alloc: Global,
    mut input: R,
    mut output: W,
) -> Result<bool, RunFault> {
    let mut position = Position::Outside;
    let mut value = Vec::new(alloc);
    for _ in 0..u64::MAX {
        match next_record(&mut input, &mut position, &mut value, MAX_LINE)? {
            TakenRecord::Record => write_bytes(&mut output, &value)?,
            TakenRecord::TooLong | TakenRecord::Unclosed => return Ok(false),
            TakenRecord::End => return Ok(true),
        }
    }
    Ok(false)
}

#[test]
fn records_that_are_copied(rt: HostRuntime) {
    let mut output = Vec::new(rt.alloc());
    assert!(rt; copy(rt.alloc(), b"[1,{}] 2".as_slice(), &mut output) == Ok(true));
    assert!(rt; output.as_slice() == b"1{}2".as_slice());
    assert!(rt; copy(rt.alloc(), b"[1,{}".as_slice(), &mut output) == Ok(false));
}
