// Bytes in hexadecimal.
ghost use Rattle.std.specs.Prelude.{◌≡◌, ◌<◌};
ghost use Rattle.dump.specs.HexLine.{hex_figure, after_byte, hex_byte, hex_line};
ghost use Rattle.line.specs.Text.{put};
ghost use Rattle.line.specs.Writing.{out_in, Leaves};

use line::{BLANK, LINE_FEED, Writer};

fn hex_figure(d: u8) -> u8
    requires { d < 16 }
    ensures { result ≡ hex_figure d }
{
    if d < 10 { b'0' + d } else { b'a' + (d - 10) }
}

#[tactic(auto, unfolding(line::specs::Text::put))]
fn put_hex_byte(out: &mut Writer<'_>, b: u8, after: u8)
    ensures { Leaves out.old out.new (put (out_in out.old) (hex_byte b after)) }
{
    out.put_byte(hex_figure(b / 16));
    out.put_byte(hex_figure(b % 16));
    out.put_byte(after);
}

// What stands after byte i of n: a blank, and a line feed after the last.
fn after_byte(i: usize, n: usize) -> u8
    requires { i < n }
    ensures { result ≡ after_byte i n }
{
    if i + 1 == n { LINE_FEED } else { BLANK }
}

// Two figures for each byte, with a blank between, and a line feed.
#[tactic(auto, using(crate::proofs::HexLine::hex_more, crate::proofs::HexLine::hex_past), unfolding(line::specs::Text::put))]
pub fn put_hex(out: &mut Writer<'_>, bytes: &[u8])
    ensures { Leaves out.old out.new (put (out_in out.old) (hex_line bytes.now)) }
{
    for (i, b) in bytes.iter().enumerate() {
        put_hex_byte(out, *b, after_byte(i, bytes.len()));
    }
}
