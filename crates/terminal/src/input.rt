// Whole inputs.
ghost use Rattle.std.specs.Prelude.{◌≡◌, ◌<◌, IfOk, length, take};
ghost use Rattle.std.specs.Io.{ReadsAtMost};
ghost use Rattle.std.specs.Io.KnownBytes.{Consumes, IsAtEnd, ReadConsumes};
ghost use Rattle.terminal.specs.Counts.{Counts};

use crate::complaint::Streams;
use crate::failure::Failure;
use std::io::Read;
use std::{fs, io};

// Room for a path of as many bytes as the system takes.
pub const PATH: usize = 4096;

// Zeros, one more than a sheet has at most, so that a longer one is seen to be longer. Only the length is said, which lending it needs.
pub fn sheet_space() -> [u8; 32769]
    ensures { 32769 ≡ length result }
{
    [0; 32769]
}

// One read, tried again where a signal interrupts it. A proved loop has to end: this one has more turns than any run uses up.
fn read_some<R: Read>(input: &mut R, bytes: &mut [u8]) -> io::Result<usize>
    ensures bound { ReadsAtMost result bytes.new }
    ensures bytes { ReadConsumes (R.remaining input.old) (R.remaining input.new) result bytes.new }
{
    for _ in 0..u64::MAX {
        match input.read(bytes) {
            Err(why) if why.kind() == io::ErrorKind::Interrupted => {}
            read => return read,
        }
    }
    Err(io::Error::from(io::ErrorKind::TimedOut))
}

// Reads into the slice until it is full or the input ends, and answers how many bytes came: of an input whose bytes are known, just those.
pub fn read_whole<R: Read>(input: &mut R, bytes: &mut [u8]) -> io::Result<usize>
    ensures bound { ReadsAtMost result bytes.new }
    ensures came { IfOk result (λ n. Consumes (R.remaining input.old) (R.remaining input.new) (take n bytes.new)) }
    ensures all { IfOk result (λ n. n < length bytes.new → IsAtEnd (R.remaining input.new)) }
{
    // `io::copy` into the slice would do, but says nothing of how many bytes came.
    let mut done: usize = 0;
    while done < bytes.len() {
        let more = read_some(input, &mut bytes[done..])?;
        if more == 0 {
            return Ok(done);
        }
        done += more;
    }
    Ok(done)
}

// The name of an input in what is said of it: `-` stands for standard input.
pub fn input_name(path: &str) -> &[u8] {
    if path == "-" {
        b"standard input"
    } else {
        path.as_bytes()
    }
}

impl Streams<'_> {
    // Reads an opened file and complains under its name where that, or its opening, failed. Answers how many bytes came.
    // std's contracts don't say when a read succeeds, so none can say when this is `Ok`.
    pub fn read_file<R: Read + Drop>(
        self,
        opened: io::Result<R>,
        name: &[u8],
        bytes: &mut [u8],
    ) -> Result<usize, Failure>
        ensures { IfOk result (λ n. Counts n bytes.new) }
    {
        let mut file = self.or_complain(
            name,
            b"could not be opened; expected the file of a sheet",
            opened,
        )?;
        let read = read_whole(&mut file, bytes);
        self.or_complain(
            name,
            b"could not be read; expected the file of a sheet",
            read,
        )
    }

    // Reads a file, or standard input where the path is `-`.
    pub fn read_path(self, rt: &HostRuntime, path: &str, bytes: &mut [u8]) -> Result<usize, Failure>
        ensures { IfOk result (λ n. Counts n bytes.new) }
    {
        if path == "-" {
            self.read_file(Ok(rt.stdin()), input_name(path), bytes)
        } else {
            self.read_file(fs::open(rt, path), input_name(path), bytes)
        }
    }
}
