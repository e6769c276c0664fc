// Where a clock stands in a sheet's bytes.
#![tactic(auto)]

ghost use Rattle.std.specs.Prelude.{◌≡◌};
ghost use Rattle.field.specs.Field.{read_of};
ghost use Rattle.field.specs.Read.{mapped};
ghost use Rattle.sheet.specs.Sheet.{Sheet};
ghost use Rattle.sheet.specs.Locating.{clock_place, place_of, located_in};
ghost use Rattle.finding.specs.Inner.Skipping.{HasClocks};

use field::{Cursor, Read};
use reading::{Tables, read};
use reply::{Cause, Refusal};

// Where clock `i` begins, from the place of the first clock on.
fn locate(s: &[u8], first: usize, i: usize) -> usize
    requires { (v : Sheet) × HasClocks s.now first i v }
    ensures { (v : Sheet) → HasClocks s.now first i v → result ≡ clock_place v i }
{
    let mut at = first;
    for _ in 0..i {
        at = expression::past(s, at + 1);
    }
    at
}

// Where clock `i` of a sheet begins, and the cursor past it; or the refusal.
pub fn find(s: &[u8], i: usize) -> Read<usize>
    ensures { read_of result ≡ mapped place_of (located_in s.now i) }
{
    let mut tables = Tables::empty();
    let found = read(s, &mut tables)?;
    if found.clocks <= i {
        return Err(Refusal::at(Cause::NoClock, 0));
    }
    let at = locate(s, found.clockrows, i);
    let end = expression::past(s, at + 1);
    Ok((at, Cursor { at: end }))
}
