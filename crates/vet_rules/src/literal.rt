//! What a value is compared with.

/// A JSON literal that is no list and no object.
#[derive(Debug, Drop)]
pub enum Literal {
    /// A whole number from 0 to 2^64 - 1.
    Natural(u64),
    /// A whole number from -2^63 to -1.
    Negative(i64),
    /// Any other number, all that JSON reads as a float: with a point or an exponent, a whole
    /// number that does not fit 64 bits, or `-0`.
    Decimal {
        /// As it was written.
        text: String,
        /// The nearest 64-bit float.
        value: f64,
    },
    /// A text, with its escapes resolved.
    Text(String),
    Boolean(bool),
    Null,
}
