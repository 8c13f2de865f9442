// Lines of cases, as a person writes them: standard input read whole, the fields of a line, numbers in decimal, bytes in hex, and what was
// answered to a case. A case has four fields parted by ` | `, and the last is a number.
#![tactic(auto)]

mod answer;
mod digits;
mod parts;
mod reading;
mod signed;
#[cfg(test)]
mod tests;

pub use answer::{echo, tell_answer, tell_rest};
pub use digits::{number_of, put_hex};
pub use parts::{Fields, Parts, fields_of, split_once};
pub use reading::{read_input, tell_lines};
pub use signed::SignedParts;
