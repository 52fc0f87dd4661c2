//! The records of an input, one after another.
ghost use Rattle.std.specs.Prelude.{◌≡◌, ◌≢◌, ◌<◌, ◌≤◌, ℕ, List, [], ◌∷◌, Ok, Err, OnErr, OnOk};
ghost use Rattle.std.specs.Prelude.{true, false, length, take};
ghost use Rattle.streams.specs.declared.run_fault.RunFault.TheVariants.{Output};
ghost use Rattle.streams.specs.Runs.{Grows, Takes, TakesPart, EndsInput, IsNext, IsOver};
ghost use Rattle.streams.specs.Runs.{IsInside, has_ended, if_taken};
ghost use Rattle.streams.specs.declared.records.part.Part.TheVariants.{More};
ghost use Rattle.streams.specs.declared.records.position.Position.TheVariants.{Outside};
ghost use Rattle.streams.specs.declared.records.taken_record.TakenRecord.TheVariants.{Record};
ghost use Rattle.streams.specs.declared.records.taken_record.TakenRecord.TheVariants.{TooLong};
ghost use Rattle.streams.specs.declared.records.taken_record.TakenRecord.TheVariants.{Unclosed};
ghost use Rattle.streams.specs.declared.records.taken_record.TakenRecord.TheVariants.{End};

use crate::RunFault;
use crate::records::part::Part;
use crate::records::position::Position;
use crate::records::step::step_of;
use crate::records::taken_record::TakenRecord;
use std::alloc::AllocError;
use std::io;
use std::io::{BufRead, ErrorKind};

// Puts a byte behind others, of which there are `most` at most.
fn put(byte: u8, value: &mut Vec<u8>, most: usize) -> Result<(), AllocError>
    ensures put { OnOk result (Grows most value.old.items value.new.items (byte ∷ [])) }
    ensures same { OnErr result (value.new.items ≡ value.old.items) }
{
    if value.len() < most {
        value.push(byte)?;
    }
    Ok(())
}

// Takes a byte, puts it behind the record where it is of it and there is room, and says whether the
// record ends. Where memory is refused, the byte is not taken.
fn take_byte(
    byte: u8,
    position: &mut Position,
    value: &mut Vec<u8>,
    most: usize,
) -> Result<bool, AllocError>
    ensures { Takes position.old (if_taken result byte) (has_ended result) position.new
        value.old.items value.new.items most }
{
    let step = step_of(*position, byte);
    if step.is_kept {
        put(byte, value, most)?;
    }
    *position = step.position;
    Ok(step.is_end)
}

// Takes bytes through the first that ends a record, and says how many these are and whether one
// does. Where memory is refused, it takes those before.
fn take_shown(
    shown: &[u8],
    position: &mut Position,
    value: &mut Vec<u8>,
    most: usize,
) -> (usize, Result<bool, AllocError>)
    ensures bound { result.0 ≤ length shown.now }
    ensures taken { Takes position.old (take result.0 shown.now) (has_ended result.1) position.new
        value.old.items value.new.items most }
{
    for (index, byte) in shown.iter().enumerate() {
        match take_byte(*byte, position, value, most) {
            Ok(false) => {}
            Ok(true) => return (index + 1, Ok(true)),
            Err(error) => return (index, Err(error)),
        }
    }
    (shown.len(), Ok(false))
}

// What a read that failed comes to: nothing, where a signal interrupts it.
fn classify(error: &io::Error) -> Result<Part, RunFault>
    ensures part { OnOk result (result ≡ Ok More) }
    ensures fault { result ≢ Err Output }
{
    match error.kind() {
        ErrorKind::Interrupted => Ok(Part::More),
        ErrorKind::OutOfMemory => Err(RunFault::NoMemory),
        _ => Err(RunFault::Input),
    }
}

// Takes what the reader shows, through the first byte that ends a record.
fn take_part<R: BufRead>(
    input: &mut R,
    position: &mut Position,
    value: &mut Vec<u8>,
    most: usize,
) -> Result<Part, RunFault>
    ensures part { TakesPart (R.remaining input.old) (R.remaining input.new) position.old
        position.new value.old.items value.new.items most result }
    ensures fault { result ≢ Err Output }
{
    let shown = match input.fill_buf() {
        Ok(shown) => shown,
        Err(error) => return classify(&error),
    };
    if shown.is_empty() {
        return Ok(Part::AtEnd);
    }
    let (taken, ended) = take_shown(shown, position, value, most);
    input.consume(taken);
    match ended {
        Ok(true) => Ok(Part::Ended),
        Ok(false) => Ok(Part::More),
        Err(_) => Err(RunFault::NoMemory),
    }
}

// Whether a record of so many bytes is too long.
fn judge(size: usize, limit: u32) -> TakenRecord
    ensures whole { result ≡ Record → size ≤ limit }
    ensures long { result ≡ TooLong → limit < size }
    ensures one { result ≢ Unclosed }
    ensures other { result ≢ End }
{
    if size > limit as usize {
        TakenRecord::TooLong
    } else {
        TakenRecord::Record
    }
}

// What the end of the input is, behind so many bytes of a record.
fn end_input(position: &mut Position, size: usize, limit: u32) -> TakenRecord
    ensures { EndsInput position.old position.new size limit result }
{
    match *position {
        Position::Outside => TakenRecord::End,
        Position::First | Position::Member => {
            *position = Position::Outside;
            TakenRecord::Unclosed
        }
        Position::Value { is_member, .. }
        | Position::Text { is_member, .. }
        | Position::Escape { is_member, .. } => {
            *position = if is_member {
                Position::Member
            } else {
                Position::Outside
            };
            judge(size, limit)
        }
    }
}

/// Takes the next record of the input, in place of what `value` held, where it has no more than
/// `limit` bytes. A longer one is passed over, and the next call takes the one behind it.
///
/// The records are the values of JSON that stand one after another, with any white space between
/// them, and for an array its members in its place. Where one ends is told by brackets and texts
/// alone; so one may be no JSON, as the `]` in `[1, ]`, which stands for the missing member.
/// Reading begins at `Position::Outside`, and `position` goes from call to call.
///
/// Beside what the reader takes, it takes memory where `value` has less room than the record and,
/// of a longer one, than the limit and a byte. Where a record is too long, what `value` holds has
/// no meaning. It fails where a read fails or memory is refused; then the next call goes on inside
/// the same record.
///
/// ```
/// let mut input = b"[{\"a\": [1]},\n 2]\n{}".as_slice();
/// let mut position = Position::Outside;
/// let mut value = Vec::new(alloc);
/// assert!(rt; next_record(&mut input, &mut position, &mut value, 9)? == TakenRecord::TooLong);
/// assert!(rt; next_record(&mut input, &mut position, &mut value, 9)? == TakenRecord::Record);
/// assert!(rt; value.ends_with(b"2"));
/// assert!(rt; next_record(&mut input, &mut position, &mut value, 9)? == TakenRecord::Record);
/// assert!(rt; value.ends_with(b"{}"));
/// assert!(rt; next_record(&mut input, &mut position, &mut value, 9)? == TakenRecord::End);
/// ```
pub fn next_record<R: BufRead>(
    input: &mut R,
    position: &mut Position,
    value: &mut Vec<u8>,
    limit: u32,
) -> Result<TakenRecord, RunFault>
    ensures record { result ≡ Ok Record → IsNext (R.remaining input.old) (R.remaining input.new)
        position.old position.new value.new.items }
    ensures short { result ≡ Ok Record → length value.new.items ≤ limit }
    ensures too_long { result ≡ Ok TooLong → (long : List ℕ) × (limit < length long)
        × IsNext (R.remaining input.old) (R.remaining input.new) position.old position.new long }
    ensures unclosed { result ≡ Ok Unclosed → IsOver (R.remaining input.old)
        (R.remaining input.new) position.old false }
    ensures end { result ≡ Ok End → IsOver (R.remaining input.old) (R.remaining input.new)
        position.old true }
    ensures outside { result ≡ Ok Unclosed → position.new ≡ Outside }
    ensures at_end { result ≡ Ok End → position.new ≡ Outside }
    ensures inside { OnErr result (IsInside (R.remaining input.old) (R.remaining input.new)
        position.old position.new) }
    ensures fault { result ≢ Err Output }
{
    let most = limit as usize + 1;
    value.clear();
    for _ in 0..u64::MAX {
        match take_part(input, position, value, most)? {
            Part::More => {}
            Part::Ended => return Ok(judge(value.len(), limit)),
            Part::AtEnd => return Ok(end_input(position, value.len(), limit)),
        }
    }
    Err(RunFault::Input)
}
