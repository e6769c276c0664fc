// The envelope of a clock.
ghost use Rattle.std.specs.Prelude.{◌≡◌, ◌+◌, ◌≤◌, length};
ghost use Rattle.asking.specs.Envelopes.{envelope_of, numbers_from};

use envelope::Envelope;
use reply::{Cause, Refusal};

// The envelope whose four numbers stand at a place. No l or n that is given is below 0.
fn numbers_from(list: &[i64], at: usize) -> Envelope
    requires { at + 4 ≤ length list.now }
    ensures { result ≡ numbers_from list.now at }
{
    Envelope {
        k: list[at],
        K: list[at + 1],
        l: list[at + 2].unsigned_abs(),
        n: list[at + 3].unsigned_abs(),
    }
}

// The envelope of a clock of the sheet, or why there is none.
pub fn clock_envelope(sheet: &[u8], clock: usize) -> Result<Envelope, Refusal>
    ensures { result ≡ envelope_of sheet.now clock }
{
    // Four numbers for each clock and three for each link that a sheet can have.
    let mut clocks = [0i64; 512];
    let mut links = [0i64; 768];
    let totals = sizing::work_out(sheet, &mut clocks, &mut links)?;
    if totals.clocks <= clock {
        return Err(Refusal::at(Cause::NoClock, 0));
    }
    Ok(numbers_from(&clocks, 4 * clock))
}
