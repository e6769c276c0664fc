// Bits as text.
ghost use Rattle.std.specs.Prelude.{◌≡◌, map};
ghost use Rattle.dump.specs.BitLine.{bit_figure, bit_line};
ghost use Rattle.line.specs.Text.{put};
ghost use Rattle.line.specs.Writing.{out_in, Leaves};

use line::{LINE_FEED, Writer};

fn bit_figure(bit: u8) -> u8
    ensures { result ≡ bit_figure bit }
{
    if bit == 0 { b'0' } else { b'1' }
}

// Turns bits into figures: a loop of nothing else, of which the compiler makes vectors.
fn to_figures(bits: &mut [u8])
    ensures { bits.new ≡ map bit_figure bits.old }
{
    for bit in bits.iter_mut() {
        *bit = bit_figure(*bit);
    }
}

// A line put bit by bit: past the end of the buffer its bytes are only counted on.
#[tactic(auto, using(crate::proofs::BitLine::bits_more, crate::proofs::BitLine::bits_past), unfolding(line::specs::Text::put))]
fn put_each(out: &mut Writer<'_>, bits: &[u8])
    ensures { Leaves out.old out.new (put (out_in out.old) (bit_line bits.now)) }
{
    for bit in bits {
        out.put_byte(bit_figure(*bit));
    }
    out.put_byte(LINE_FEED);
}

// A figure for each bit, and a line feed: where there is room, the figures in one piece.
pub fn put_bits(out: &mut Writer<'_>, bits: &[u8])
    ensures { Leaves out.old out.new (put (out_in out.old) (bit_line bits.now)) }
{
    let at = out.at;
    let room = out.bytes.len();
    if room < at || room - at < bits.len() {
        return put_each(out, bits);
    }
    let end = at + bits.len();
    let part = &mut out.bytes[at..end];
    part.copy_from_slice(bits);
    to_figures(part);
    out.at = end;
    out.put_byte(LINE_FEED);
}
