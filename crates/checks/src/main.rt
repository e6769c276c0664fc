// Tells whether a pattern is inside an envelope: check k K l n PATTERN, or check FILE CLOCK PATTERN
#![tactic(auto)]

use asking::{FIGURES, Naming};
use std::process::ExitCode;
use terminal::{Failure, Streams, exit_code};

fn run(rt: &HostRuntime, to: Streams<'_>) -> Result<(), Failure> {
    let naming = Naming::of(rt);
    let place = naming.next();
    to.count_arguments(rt, place, place, b"k K l n PATTERN or FILE CLOCK PATTERN")?;
    let mut bits = [0u8; FIGURES];
    let (e, n) = naming.with_pattern(rt, to, place, &mut bits)?;
    to.or_refuse(None, pattern::check(e, &bits[..n]))?;
    to.print(b"inside\n")
}

fn main(rt: HostRuntime) -> ExitCode {
    let to = Streams::of(&rt, b"check");
    exit_code(run(&rt, to))
}
