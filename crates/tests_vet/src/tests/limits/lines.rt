//! The longest line, and how much of a longer one is held.
use super::rules::checks_of;
use std::alloc::Global;
use std::io;
use std::io::{BufRead, Read};
use std::process::Abort;
use streams::{Position, TakenLine, TakenRecord, next_line_within, next_record};
use vet_run::settings::{Report, Settings};
use vet_run::{Counts, Job, Streams, Tally, run_records};

// How many bytes a line may have, with its line feed.
const LONGEST: usize = 64 * 1024 * 1024;

const BLOCK: [u8; 65_536] = [0xff; 65_536];

// So many bytes that are no text, which it shows by blocks, and then the rest.
#[derive(Drop)]
struct LongInput<'a> {
    block: &'a [u8],
    left: usize,
    rest: &'a [u8],
}

impl LongInput<'_> {
    fn shown(&self) -> &[u8] {
        if self.left == 0 {
            return self.rest;
        }
        let most = self.block.len().min(self.left);
        &self.block[..most]
    }
}

impl Read for LongInput<'_> {
    fn read(&mut self, buf: &mut [u8]) -> io::Result<usize> {
        let mut shown = self.shown();
        let count = shown.read(buf)?;
        self.consume(count);
        Ok(count)
    }
}

impl BufRead for LongInput<'_> {
    fn fill_buf(&mut self) -> io::Result<&[u8]> {
        Ok(self.shown())
    }

    fn consume(&mut self, amount: usize) {
        if self.left == 0 {
            self.rest.consume(amount);
        } else {
            self.left = self.left.saturating_sub(amount);
        }
    }
}

const COUNTS: Counts = Counts {
    records: 1,
    failed: 1,
    unreadable: 1,
};

// Whether a run tells this of a line that has so many bytes before its line feed, and goes on.
fn tells(rt: &impl Abort, alloc: Global, left: usize, message: &[u8]) -> bool {
    let rules = checks_of(rt, alloc, b"a: / == 1");
    let settings = Settings::new(Report::Lines(false), None);
    let job = Job::new(&rules, &settings);
    let mut tally = Tally::new(alloc, None);
    let mut input = LongInput {
        block: &BLOCK,
        left,
        rest: b"\n2\n",
    };
    let mut streams = Streams {
        output: Vec::new(alloc),
        messages: Vec::new(alloc),
    };
    run_records(alloc, &job, &mut tally, &mut input, &mut streams).expect(rt, "memory");
    streams.messages.as_slice() == message
        && streams.output.as_slice() == b"2\n".as_slice()
        && tally.counts == COUNTS
}

// Of the longest one the bytes are looked at.
#[test]
fn the_longest_line(rt: HostRuntime) {
    assert!(rt; tells(&rt, rt.alloc(), LONGEST - 1, b"vet: record 1: not UTF-8\n"));
}

#[test]
fn a_line_of_a_byte_more(rt: HostRuntime) {
    let message = b"vet: record 1: longer than 67108864 bytes\n";
    assert!(rt; tells(&rt, rt.alloc(), LONGEST, message));
}

// How many bytes the longer line has, how many it may have, and how many are held at most.
const LONG: usize = 1_000_000;

const LIMIT: u32 = 100;

const HELD: usize = 1_000;

// Such a line, with a short one behind it.
fn long_input(rt: &impl Abort, alloc: Global) -> Vec<u8> {
    let mut input = vec![in alloc; b'a'; LONG].expect(rt, "memory");
    input.extend_from_slice(b"\n1\n").expect(rt, "memory");
    input
}

#[test]
fn what_is_held_of_a_longer_line(rt: HostRuntime) {
    let alloc = rt.alloc();
    let bytes = long_input(&rt, alloc);
    let mut input = bytes.as_slice();
    let mut line = Vec::new(alloc);
    let taken = next_line_within(&mut input, &mut line, LIMIT).expect(&rt, "memory");
    assert!(rt; taken == TakenLine::TooLong && line.capacity() <= HELD);
    let taken = next_line_within(&mut input, &mut line, LIMIT).expect(&rt, "memory");
    assert!(rt; taken == TakenLine::Line && line.as_slice() == b"1\n".as_slice());
}

#[test]
fn what_is_held_of_a_longer_record(rt: HostRuntime) {
    let alloc = rt.alloc();
    let bytes = long_input(&rt, alloc);
    let mut input = bytes.as_slice();
    let (mut position, mut value) = (Position::Outside, Vec::new(alloc));
    let taken = next_record(&mut input, &mut position, &mut value, LIMIT).expect(&rt, "memory");
    assert!(rt; taken == TakenRecord::TooLong && value.capacity() <= HELD);
    let taken = next_record(&mut input, &mut position, &mut value, LIMIT).expect(&rt, "memory");
    assert!(rt; taken == TakenRecord::Record && value.as_slice() == b"1".as_slice());
}
