// How an envelope is named on the command line.
ghost use Rattle.std.specs.Prelude.{◌≡◌, ◌≤◌, IfOk, length};
ghost use Rattle.asking.specs.Places.{next_of};

use crate::clock::clock_envelope;
use crate::figures::pattern_argument;
use envelope::Envelope;
use std::rt::Env;
use terminal::{Failure, PATH, Streams, input_name, is_given, is_number, is_word, sheet_space};

// By k, K, l and n, or as that of a clock, by FILE and CLOCK.
#[derive(Clone, Copy, Debug, PartialEq, Eq)]
pub enum Naming {
    Numbers,
    Clock,
}

fn numbers(rt: &HostRuntime, to: Streams<'_>) -> Result<Envelope, Failure> {
    Ok(Envelope {
        k: to.whole_argument(rt, b"k", 1)?,
        K: to.whole_argument(rt, b"K", 2)?,
        l: to.natural_argument(rt, b"l", 3)?,
        n: to.natural_argument(rt, b"n", 4)?,
    })
}

fn of_clock(rt: &HostRuntime, to: Streams<'_>) -> Result<Envelope, Failure> {
    let mut text = [0u8; PATH];
    let (path, clock) = to.clock_arguments(rt, &mut text)?;
    let mut sheet = sheet_space();
    let n = to.read_path(rt, path, &mut sheet)?;
    to.or_refuse(Some(input_name(path)), clock_envelope(&sheet[..n], clock))
}

impl Naming {
    // By FILE and CLOCK where `from` stands behind them, or where there are fewer than five arguments and the first is no number.
    pub fn of(rt: &impl Env) -> Naming {
        if is_word(rt, 3, b"from") || !is_given(rt, 5) && !is_number(rt, 1) {
            Naming::Clock
        } else {
            Naming::Numbers
        }
    }

    // The place of the argument behind it.
    pub fn next(self) -> usize
        ensures { result ≡ next_of self }
    {
        match self {
            Naming::Numbers => 5,
            Naming::Clock => 3,
        }
    }

    pub fn envelope(self, rt: &HostRuntime, to: Streams<'_>) -> Result<Envelope, Failure> {
        match self {
            Naming::Numbers => numbers(rt, to),
            Naming::Clock => of_clock(rt, to),
        }
    }

    // The envelope, and how many bits PATTERN has, which stands in that place: they are put at the start of the slice.
    pub fn with_pattern(
        self,
        rt: &HostRuntime,
        to: Streams<'_>,
        place: usize,
        bits: &mut [u8],
    ) -> Result<(Envelope, usize), Failure>
        ensures { IfOk result (λ read. read.1 ≤ length bits.new) }
    {
        if self == Naming::Clock && is_word(rt, 1, b"-") && is_word(rt, place, b"-") {
            return Err(to.complain(
                b"FILE and PATTERN are both standard input",
                b"`-` for one of them",
            ));
        }
        let e = self.envelope(rt, to)?;
        let n = pattern_argument(rt, to, place, bits)?;
        Ok((e, n))
    }
}
