//! Where reading stands in an input.

/// Where reading stands in an input of records.
///
/// Reading begins `Outside`. `next_record` keeps it from call to call.
#[derive(Clone, Copy, Debug, PartialEq, Eq)]
pub enum Position {
    /// Between records, in no array.
    Outside,
    /// In an array, behind its `[`.
    First,
    /// In an array, behind a `,`, or behind a record that the end of the input ended.
    Member,
    /// In a record, outside its texts: a member of an array or not, and under so many open
    /// brackets.
    Value { is_member: bool, depth: u64 },
    /// In a text of a record.
    Text { is_member: bool, depth: u64 },
    /// Behind a `\` in a text of a record.
    Escape { is_member: bool, depth: u64 },
}
