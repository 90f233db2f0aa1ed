//! Lines, tokens and numbers of a text, read without memory, and numbers written.
//!
//! The formats read here are lists of lines, and a line is a list of tokens. Both come from iterators
//! over the bytes that are there: a line and a token are slices of the text. Numbers may have any
//! number of digits, and their value alone decides whether they are within a limit.
#![tactic(auto)]

/// Numbers appended to a text.
mod decimal;
/// Numbers in a row.
mod field;
/// A number at the front of a line's rest.
mod front;
/// What the definitions say, worked out, and what is written read back.
mod laws;
/// A line with its number.
mod line;
/// The lines of a text.
mod lines;
/// Naturals and signed numbers.
mod number;
/// Lines appended to a text.
mod print;
/// The tokens of a line.
mod tokens;

pub use decimal::{push_natural, push_signed};
pub use field::{FieldRefusal, fields, fields_left, first_fields};
pub use laws::{
    natural_of_decimal, printed_numbers, signed_of_decimal, worked_comments, worked_fields,
    worked_first_numbers, worked_limits, worked_lines, worked_numbers, worked_other_numbers,
    worked_tokens,
};
pub use line::{Line, is_comment};
pub use lines::Lines;
pub use number::{NumberRefusal, natural, signed};
pub use print::push_line;
pub use tokens::Tokens;
