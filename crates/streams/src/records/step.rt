//! What a byte of an input does, by where reading stands.
ghost use Rattle.std.specs.Prelude.{◌≡◌};
ghost use Rattle.streams.specs.RecordSteps.{is_white, is_opening, is_closing, deeper};
ghost use Rattle.streams.specs.RecordSteps.{between, within, last, behind};
ghost use Rattle.streams.specs.RecordSteps.{in_member, in_record, in_value, in_text};
ghost use Rattle.streams.specs.RecordSteps.{at_first, at_member, at_outside, step_of};

use crate::records::position::Position;

/// Where reading stands behind a byte, whether the byte is of a record, and whether a record ends
/// with it or before it.
#[derive(Clone, Copy)]
pub(crate) struct Step {
    pub(crate) position: Position,
    pub(crate) is_kept: bool,
    pub(crate) is_end: bool,
}

// Whether the byte is white space of JSON.
fn is_white(byte: u8) -> bool
    ensures { result ≡ is_white byte }
{
    byte == b' ' || byte == b'\t' || byte == b'\n' || byte == b'\r'
}

fn is_opening(byte: u8) -> bool
    ensures { result ≡ is_opening byte }
{
    byte == b'[' || byte == b'{'
}

fn is_closing(byte: u8) -> bool
    ensures { result ≡ is_closing byte }
{
    byte == b']' || byte == b'}'
}

// One bracket deeper; deeper than 64 bits count is not told apart.
fn deeper(depth: u64) -> u64
    ensures { result ≡ deeper depth }
{
    if depth < u64::MAX { depth + 1 } else { depth }
}

// A byte between records.
fn between(position: Position) -> Step
    ensures { result ≡ between position }
{
    Step {
        position,
        is_kept: false,
        is_end: false,
    }
}

// A byte of a record, which goes on.
fn within(position: Position) -> Step
    ensures { result ≡ within position }
{
    Step {
        position,
        is_kept: true,
        is_end: false,
    }
}

// The last byte of a record.
fn last(position: Position) -> Step
    ensures { result ≡ last position }
{
    Step {
        position,
        is_kept: true,
        is_end: true,
    }
}

// The byte behind a record.
fn behind(position: Position) -> Step
    ensures { result ≡ behind position }
{
    Step {
        position,
        is_kept: false,
        is_end: true,
    }
}

// In a record that is a member of an array, outside its texts.
fn in_member(depth: u64, byte: u8) -> Step
    ensures { result ≡ in_member depth byte }
{
    let is_member = true;
    if byte == b'"' {
        within(Position::Text { is_member, depth })
    } else if is_opening(byte) {
        let depth = deeper(depth);
        within(Position::Value { is_member, depth })
    } else if byte == b',' && depth == 0 {
        behind(Position::Member)
    } else if byte == b']' && depth == 0 {
        behind(Position::Outside)
    } else if is_closing(byte) {
        let depth = depth.saturating_sub(1);
        within(Position::Value { is_member, depth })
    } else {
        within(Position::Value { is_member, depth })
    }
}

// In a record that stands alone, outside its texts.
fn in_record(depth: u64, byte: u8) -> Step
    ensures { result ≡ in_record depth byte }
{
    let is_member = false;
    if byte == b'"' {
        within(Position::Text { is_member, depth })
    } else if is_opening(byte) {
        let depth = deeper(depth);
        within(Position::Value { is_member, depth })
    } else if is_closing(byte) {
        if depth > 1 {
            let depth = depth - 1;
            within(Position::Value { is_member, depth })
        } else {
            last(Position::Outside)
        }
    } else if is_white(byte) && depth == 0 {
        behind(Position::Outside)
    } else {
        within(Position::Value { is_member, depth })
    }
}

// In a record, outside its texts.
fn in_value(is_member: bool, depth: u64, byte: u8) -> Step
    ensures { result ≡ in_value is_member depth byte }
{
    if is_member {
        in_member(depth, byte)
    } else {
        in_record(depth, byte)
    }
}

// In a text of a record.
fn in_text(is_member: bool, depth: u64, byte: u8) -> Step
    ensures { result ≡ in_text is_member depth byte }
{
    if byte == b'\\' {
        within(Position::Escape { is_member, depth })
    } else if byte == b'"' {
        if !is_member && depth == 0 {
            last(Position::Outside)
        } else {
            within(Position::Value { is_member, depth })
        }
    } else {
        within(Position::Text { is_member, depth })
    }
}

// Behind the `[` of an array. A `,` there stands for the member that is missing.
fn at_first(byte: u8) -> Step
    ensures { result ≡ at_first byte }
{
    if is_white(byte) {
        between(Position::First)
    } else if byte == b']' {
        between(Position::Outside)
    } else if byte == b',' {
        last(Position::Member)
    } else {
        in_member(0, byte)
    }
}

// Behind a `,` of an array. A `,` or a `]` there stands for the member that is missing.
fn at_member(byte: u8) -> Step
    ensures { result ≡ at_member byte }
{
    if is_white(byte) {
        between(Position::Member)
    } else if byte == b']' {
        last(Position::Outside)
    } else if byte == b',' {
        last(Position::Member)
    } else {
        in_member(0, byte)
    }
}

// In no array and in no record.
fn at_outside(byte: u8) -> Step
    ensures { result ≡ at_outside byte }
{
    if is_white(byte) {
        between(Position::Outside)
    } else if byte == b'[' {
        between(Position::First)
    } else {
        in_record(0, byte)
    }
}

/// What the byte does.
pub(crate) fn step_of(position: Position, byte: u8) -> Step
    ensures { result ≡ step_of position byte }
{
    match position {
        Position::Outside => at_outside(byte),
        Position::First => at_first(byte),
        Position::Member => at_member(byte),
        Position::Value { is_member, depth } => in_value(is_member, depth, byte),
        Position::Text { is_member, depth } => in_text(is_member, depth, byte),
        Position::Escape { is_member, depth } => within(Position::Text { is_member, depth }),
    }
}
