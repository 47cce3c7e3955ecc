// The lowest layer of a script reader, over any bytes: the lines of a text, the words of a line,
// the number that a word writes, and a number as it is printed.

#![tactic(auto)]

mod print_decimal;
mod read_number;
mod split_halves;
mod split_lines;
mod split_words;

pub use print_decimal::push_decimal;
pub use read_number::number;
pub use split_halves::{Halves, part_in_two};
pub use split_lines::Lines;
pub use split_words::{Words, text_behind};

#[cfg(test)]
mod tests;
