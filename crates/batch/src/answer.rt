// What every answer is made of: a reply, and numbers of eight bytes, low byte first.
ghost use Rattle.std.specs.Prelude.{◌∷◌};
ghost use Rattle.field.specs.Spelling.{bytes_of};
ghost use Rattle.line.specs.Text.{put};
ghost use Rattle.line.specs.Writing.{out_in, Leaves};
ghost use Rattle.batch.specs.Numbers.{numbers_of};

use field::{put_low_first, to_twos};
use line::Writer;
use reply::Refusal;

#[tactic(auto, using(crate::proofs::Numbers::filled))]
pub fn put_number(out: &mut Writer<'_>, x: u64)
    ensures { Leaves out.old out.new (put (out_in out.old) (bytes_of 8 x)) }
{
    let mut bytes = [0u8; 8];
    put_low_first(&mut bytes, 0, 8, x);
    out.put_bytes(&bytes);
}

// Puts signed numbers, in two's complement.
#[tactic(auto, using(crate::proofs::Numbers::numbers_more, crate::proofs::Numbers::numbers_past), unfolding(line::specs::Text::put))]
pub fn put_all(out: &mut Writer<'_>, numbers: &[i64])
    ensures { Leaves out.old out.new (put (out_in out.old) (numbers_of numbers.now)) }
{
    for x in numbers {
        put_number(out, to_twos(*x));
    }
}

// Puts a reply's number and place, which every answer begins with.
#[tactic(auto, unfolding(line::specs::Text::put))]
pub fn put_reply(out: &mut Writer<'_>, number: u8, place: u64)
    ensures { Leaves out.old out.new (put (out_in out.old) (number ∷ bytes_of 8 place)) }
{
    out.put_byte(number);
    put_number(out, place);
}

// 0 and a place, or a refusal's number and place.
pub fn put_outcome(out: &mut Writer<'_>, outcome: Result<usize, Refusal>) {
    match outcome {
        Ok(place) => put_reply(out, 0, place as u64),
        Err(refusal) => put_reply(out, refusal.number(), refusal.place as u64),
    }
}
