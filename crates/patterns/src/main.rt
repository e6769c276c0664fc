// Prints the patterns of an envelope, one to a line, from the first on or from one that is given: patterns k K l n LENGTH [COUNT]
#![tactic(auto)]

ghost use Rattle.std.specs.Prelude.{OnOk, ◌+◌, ◌≤◌, length};

use asking::{FIGURES, Naming};
use envelope::Envelope;
use line::Writer;
use pattern::Answer;
use std::process::ExitCode;
use terminal::{Failure, Streams, exit_code, is_given, is_word};

const USAGE: &[u8] =
    b"k K l n LENGTH [COUNT] or FILE CLOCK LENGTH [COUNT], and from PATTERN in place of LENGTH to begin there";

// Lines that wait to be printed. Their length stands beside the buffer since no heap is used.
#[derive(Drop)]
struct Lines<'a> {
    to: Streams<'a>,
    text: [u8; 65536],
    at: usize,
    ghost within: { at ≤ 65536 },
}

impl<'a> Lines<'a> {
    fn of(to: Streams<'a>) -> Lines<'a> {
        Lines {
            to,
            text: [0; 65536],
            at: 0,
        }
    }

    fn print(&self) -> Result<(), Failure> {
        self.to.print(&self.text[..self.at])
    }

    // Prints the lines where there is no room for `need` bytes more.
    fn make_room(&mut self, need: usize) -> Result<(), Failure>
        requires { need ≤ 65536 }
        ensures { OnOk result (self.new.at + need ≤ 65536) }
    {
        if need > self.text.len() - self.at {
            self.print()?;
            self.at = 0;
        }
        Ok(())
    }

    // Adds a pattern's line.
    fn put(&mut self, bits: &[u8]) -> Result<(), Failure>
        requires { length bits.now + 1 ≤ 65536 }
    {
        self.make_room(bits.len() + 1)?;
        let mut out = Writer {
            bytes: &mut self.text,
            at: self.at,
        };
        dump::put_bits(&mut out, bits);
        self.at = out.at;
        Ok(())
    }
}

// Prints `count` patterns from this one on. That they are short stays a clause: a slice has any length. Where there are fewer, the lines are written, and then why.
fn walk(to: Streams<'_>, e: Envelope, count: u64, bits: &mut [u8]) -> Result<(), Failure>
    requires { length bits.old ≤ 4098 }
{
    let mut lines = Lines::of(to);
    for _ in 0..count {
        lines.put(bits)?;
        match pattern::next(e, bits) {
            Ok(Answer::Done) => {}
            Ok(_) => {
                lines.print()?;
                return to.print(b"last\n");
            }
            Err(refusal) => {
                lines.print()?;
                return Err(to.refuse(None, refusal));
            }
        }
    }
    lines.print()
}

// LENGTH and COUNT, which stand behind the envelope.
fn behind(rt: &HostRuntime, to: Streams<'_>, naming: Naming) -> Result<(u64, u64), Failure> {
    let length = to.natural_argument(rt, b"LENGTH", naming.next())?;
    Ok((length, count_argument(rt, to, naming.next() + 1)?))
}

// By LENGTH. Numbers are judged in the order in which they stand, and a sheet is read when all of them will do.
fn print_first(rt: &HostRuntime, to: Streams<'_>, naming: Naming) -> Result<(), Failure> {
    let (e, (length, count)) = match naming {
        Naming::Numbers => (naming.envelope(rt, to)?, behind(rt, to, naming)?),
        Naming::Clock => {
            let numbers = behind(rt, to, naming)?;
            (naming.envelope(rt, to)?, numbers)
        }
    };
    let mut bits = [0u8; FIGURES];
    // A longer pattern is refused as one that fills the slice.
    let m = length.min(FIGURES as u64) as usize;
    to.or_refuse(None, pattern::first(e, &mut bits[..m]))?;
    walk(to, e, count, &mut bits[..m])
}

// By `from PATTERN`.
fn print_given(rt: &HostRuntime, to: Streams<'_>, naming: Naming) -> Result<(), Failure> {
    let count = count_argument(rt, to, naming.next() + 2)?;
    let mut bits = [0u8; FIGURES];
    let (e, m) = naming.with_pattern(rt, to, naming.next() + 1, &mut bits)?;
    to.or_refuse(None, pattern::check(e, &bits[..m]))?;
    walk(to, e, count, &mut bits[..m])
}

// COUNT, or more patterns than any run prints.
fn count_argument(rt: &HostRuntime, to: Streams<'_>, place: usize) -> Result<u64, Failure> {
    if is_given(rt, place) {
        return to.natural_argument(rt, b"COUNT", place);
    }
    Ok(u64::MAX)
}

fn run(rt: &HostRuntime, to: Streams<'_>) -> Result<(), Failure> {
    let naming = Naming::of(rt);
    let is_from = is_word(rt, naming.next(), b"from");
    let last = naming.next() + if is_from { 1 } else { 0 };
    to.count_arguments(rt, last, last + 1, USAGE)?;
    if is_from {
        print_given(rt, to, naming)
    } else {
        print_first(rt, to, naming)
    }
}

fn main(rt: HostRuntime) -> ExitCode {
    let to = Streams::of(&rt, b"patterns");
    exit_code(run(&rt, to))
}
