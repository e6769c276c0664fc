// Closes a clock of a sheet in its file: close FILE CLOCK
#![tactic(auto)]

mod in_place;

use in_place::Unclosed;
use std::process::ExitCode;
use terminal::{Failure, PATH, Streams, exit_code};

// Says why a clock was not closed.
fn complain(to: Streams<'_>, path: &str, why: Unclosed) -> Failure {
    let name = path.as_bytes();
    match why {
        Unclosed::NoRegularFile => {
            to.complain_of(name, b"is no regular file", b"the file of a sheet")
        }
        Unclosed::NotOpened(why) => to.complain_of_failure(
            name,
            b"could not be opened; expected the file of a sheet",
            &why,
        ),
        Unclosed::NotRead(why) => to.complain_of_failure(
            name,
            b"could not be read; expected the file of a sheet",
            &why,
        ),
        Unclosed::Refused(refusal) => to.refuse(Some(name), refusal),
        Unclosed::NotWritten(why) => to.complain_of_failure(
            name,
            b"could not be written for sure; expected a disk that takes the byte, which may or may not have reached it",
            &why,
        ),
    }
}

fn run(rt: &HostRuntime, to: Streams<'_>) -> Result<(), Failure> {
    to.count_arguments(rt, 2, 2, b"FILE CLOCK")?;
    let mut text = [0u8; PATH];
    let (path, clock) = to.clock_arguments(rt, &mut text)?;
    if path == "-" {
        return Err(to.complain(
            b"FILE is standard input",
            b"a file, in which a byte can be written",
        ));
    }
    match in_place::close(rt, path, clock) {
        Ok(place) => to.print_closed(clock as u64, place),
        Err(why) => Err(complain(to, path, why)),
    }
}

fn main(rt: HostRuntime) -> ExitCode {
    let to = Streams::of(&rt, b"close");
    exit_code(run(&rt, to))
}
