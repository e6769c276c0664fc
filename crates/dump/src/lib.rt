// Bits and bytes as text: a pattern's line, an expression in hexadecimal.
#![tactic(auto)]

mod bits;
mod hex;

pub use bits::put_bits;
pub use hex::put_hex;
