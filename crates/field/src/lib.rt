// Fields of a sheet: a cursor by value, whose methods answer a field with the moved cursor, or a refusal with its place. And numbers in bytes.
#![tactic(auto)]

mod number;

ghost use Rattle.std.specs.Prelude.{◌≡◌, ◌≤◌};
ghost use Rattle.reply.specs.Refusal.{cause_number};
ghost use Rattle.field.specs.Field.{field_at, field_in, signed_at, signed_in, read_of};

pub use number::{HALF_32, HALF_64, from_twos, low_first, put_low_first, to_twos};
use reply::{Cause, Refusal};

// A place in a sheet, which is passed beside it: with the slice inside, each answer would carry two words more, and each contract the name of the slice.
#[derive(Clone, Copy, Debug, PartialEq, Eq)]
pub struct Cursor {
    pub at: usize,
}

// What was read and the cursor past it; or the refusal.
pub type Read<T> = Result<(T, Cursor), Refusal>;

impl Cursor {
    // The refusal of what stands here.
    pub fn refusal(self, cause: Cause) -> Refusal
        ensures { result ≡ record { cause = cause; place = self.at } }
    {
        Refusal::at(cause, self.at)
    }

    // A field of `width` bytes.
    #[tactic(auto, using(crate::proofs::Fields::field_short, crate::proofs::Fields::field_whole))]
    pub fn field(self, s: &[u8], width: usize) -> Read<usize>
        requires { width ≤ 4 }
        ensures { read_of result ≡ field_at width s.now self.at }
    {
        let at = self.at;
        if at <= s.len() && width <= s.len() - at {
            return Ok((low_first(s, at, width), Cursor { at: at + width }));
        }
        Err(self.refusal(Cause::Missing))
    }

    // A field whose number is to be at least `low` and below `high`: else it is refused for `cause`, at the field.
    #[tactic(auto, unfolding(crate::specs::Field::field_in))]
    pub fn within(
        self,
        s: &[u8],
        width: usize,
        low: usize,
        high: usize,
        cause: Cause,
    ) -> Read<usize>
        requires { width ≤ 4 }
        ensures { read_of result ≡ field_in width low high (cause_number cause) s.now self.at }
    {
        let (v, next) = self.field(s, width)?;
        if v < low || high <= v {
            return Err(self.refusal(cause));
        }
        Ok((v, next))
    }

    // A field of four bytes in two's complement.
    #[tactic(auto, unfolding(crate::specs::Field::signed_at, crate::specs::Field::signed))]
    pub fn signed(self, s: &[u8]) -> Read<i64>
        ensures { read_of result ≡ signed_at s.now self.at }
    {
        let (v, next) = self.field(s, 4)?;
        Ok((from_twos(v as u64, HALF_32), next))
    }

    // A signed field from `low` to `high`: else it is beyond its limit, at the field. Not `within`: that `high` is the first too large, for counts that end a range.
    #[tactic(auto, unfolding(crate::specs::Field::signed_in))]
    pub fn signed_within(self, s: &[u8], low: i64, high: i64) -> Read<i64>
        ensures { read_of result ≡ signed_in low high s.now self.at }
    {
        let (z, next) = self.signed(s)?;
        if z < low || high < z {
            return Err(self.refusal(Cause::Beyond));
        }
        Ok((z, next))
    }
}
