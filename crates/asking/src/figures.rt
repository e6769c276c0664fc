// A pattern in figures, as an argument or on standard input.
ghost use Rattle.std.specs.Prelude.{◌≡◌, IfOk, ◌≤◌, length};
ghost use Rattle.asking.specs.Figures.{bit_of, bits_of, line_of};

use std::rt::Env;
use terminal::{Failure, Streams, is_word, read_whole};

// Room for the longest pattern, a line feed, and one byte more: any longer text is refused as one that fills it.
pub const FIGURES: usize = 4_098;

fn bit_of(figure: u8) -> u8
    ensures { result ≡ bit_of figure }
{
    match figure {
        b'0' => 0,
        b'1' => 1,
        _ => 2,
    }
}

// Turns figures into bits, and any other byte into one that is no bit, so that an entry point refuses it in its place.
fn to_bits(text: &mut [u8])
    ensures { text.new ≡ bits_of text.old }
{
    for b in text.iter_mut() {
        *b = bit_of(*b);
    }
}

// A text without the line feed that may end it.
fn line(text: &[u8]) -> &[u8]
    ensures { result.now ≡ line_of text.now }
{
    text.strip_suffix(b"\n").unwrap_or(text)
}

// Reads a line's figures, and answers how many there are.
fn read_figures(rt: &HostRuntime, to: Streams<'_>, bits: &mut [u8]) -> Result<usize, Failure>
    ensures { IfOk result (λ n. n ≤ length bits.new) }
{
    let n = to.or_complain(
        b"standard input",
        b"could not be read; expected a pattern in figures 0 and 1",
        read_whole(&mut rt.stdin(), bits),
    )?;
    Ok(line(&bits[..n]).len())
}

// Puts the bits of PATTERN at the start of the slice, and answers how many there are, as std's `read`. `-` stands for a line of standard input.
pub fn pattern_argument(
    rt: &HostRuntime,
    to: Streams<'_>,
    place: usize,
    bits: &mut [u8],
) -> Result<usize, Failure>
    ensures { IfOk result (λ n. n ≤ length bits.new) }
{
    let n = if is_word(rt, place, b"-") {
        read_figures(rt, to, bits)?
    } else {
        // One that is longer than the slice is refused by its length, whatever its figures.
        rt.arg(place, bits).unwrap_or(bits.len())
    };
    to_bits(&mut bits[..n]);
    Ok(n)
}
