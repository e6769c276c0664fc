// What the programs share: their arguments, whole inputs, lines for standard output, complaints, refusals and exit statuses.
#![tactic(auto)]

mod argument;
mod complaint;
mod failure;
mod input;
mod meaning;
mod outcome;
mod reason;

pub use argument::{is_given, is_number, is_word, name_text};
pub use complaint::{Streams, written};
pub use failure::{Failure, exit_code, worse};
pub use input::{PATH, input_name, read_whole, sheet_space};
