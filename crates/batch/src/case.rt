// Reading a case: its bytes, its numbers, and what ends a run.
ghost use Rattle.std.specs.Prelude.{◌≡◌, ◌≤◌, ◌<◌, length, MatchResult};
ghost use Rattle.batch.specs.Ops.{OpOf};

use std::io::{ErrorKind, Read};

// Why no case follows: this one is malformed, none could be read where one may begin, or its answer could not be written.
#[derive(Clone, Copy, Debug, PartialEq, Eq)]
pub enum Stop {
    Malformed,
    Unread,
    Unwritten,
}

pub type Turn = Result<(), Stop>;

// What is asked of a pattern.
#[derive(Clone, Copy, Debug, PartialEq, Eq)]
pub enum Ask {
    Check,
    First,
    Next,
}

// What a case asks for.
#[derive(Clone, Copy, Debug, PartialEq, Eq)]
pub enum Op {
    WorkOut,
    Close,
    Quote,
    Pattern(Ask),
    List,
}

impl TryFrom<u8> for Op {
    type Error = Stop;

    ghost try_from_gives = { OpOf };

    fn try_from(op: u8) -> Result<Op, Stop> {
        match op {
            1 => Ok(Op::WorkOut),
            2 => Ok(Op::Close),
            3 => Ok(Op::Quote),
            4 => Ok(Op::Pattern(Ask::Check)),
            5 => Ok(Op::Pattern(Ask::First)),
            6 => Ok(Op::Pattern(Ask::Next)),
            7 => Ok(Op::List),
            _ => Err(Stop::Malformed),
        }
    }
}

// Fills the slice with the bytes that come next.
pub fn read(rt: &HostRuntime, bytes: &mut [u8]) -> Turn {
    rt.stdin().read_exact(bytes).map_err(|_| Stop::Malformed)
}

// The first byte of the next case, where there is one more.
pub fn next_op(rt: &HostRuntime) -> Result<Option<u8>, Stop> {
    let mut op = [0u8; 1];
    match rt.stdin().read_exact(&mut op) {
        Ok(()) => Ok(Some(op[0])),
        Err(why) if why.kind() == ErrorKind::UnexpectedEof => Ok(None),
        Err(_) => Err(Stop::Unread),
    }
}

// The numbers before a case's bytes, as they came.
pub fn head<const N: usize>(rt: &HostRuntime) -> Result<[u8; N], Stop> {
    let mut bytes = [0u8; N];
    read(rt, &mut bytes)?;
    Ok(bytes)
}

// A number that has a limit.
pub fn limited(n: usize, most: usize) -> Result<usize, Stop>
    ensures { MatchResult result (λ m. (m ≡ n) × (n ≤ most)) (λ _. most < n) }
{
    if n <= most {
        Ok(n)
    } else {
        Err(Stop::Malformed)
    }
}
