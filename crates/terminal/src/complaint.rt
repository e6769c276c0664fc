// Complaints: one line on standard error that says what was wrong and what was expected.
ghost use Rattle.std.specs.Prelude.{◌≡◌, MatchResult, Ok, Err, take};
ghost use Rattle.line.specs.Text.{put};
ghost use Rattle.line.specs.Writing.{out_in, Leaves};
ghost use Rattle.terminal.specs.Shown.{shown_byte, shown_name};
ghost use Rattle.terminal.specs.declared.failure.Failure.TheVariants.{Trouble};

use crate::failure::Failure;
use crate::reason::put_reason;
use line::{LINE_FEED, Writer};
use std::io;
use std::io::{Print, Stderr, Stdout};

// Room for a line: a name or an argument of at most 4,096 bytes, and what is said of it.
pub const LINE: usize = 5_120;

// A program's name, and where it writes its lines and its complaints. The runtime isn't in it: a function without `rt` reads no file and no argument.
#[derive(Clone, Copy)]
pub struct Streams<'a> {
    program: &'a [u8],
    out: Stdout,
    err: Stderr,
}

// A byte of a name as it is shown: one that would end the line or steer the terminal is a question mark.
fn shown(b: u8) -> u8
    ensures { result ≡ shown_byte b }
{
    if b.is_ascii_control() { b'?' } else { b }
}

// Puts a name; of one longer than any path, its beginning.
#[tactic(auto, using(crate::proofs::Names::shown_more, crate::proofs::Names::shown_done))]
pub fn put_name(out: &mut Writer<'_>, name: &[u8])
    ensures { Leaves out.old out.new (put (out_in out.old) (shown_name name.now)) }
{
    let start = &name[..name.len().min(4096)];
    for b in start {
        out.put_byte(shown(*b));
    }
}

// ` WRONG; expected EXPECTED`, without the blank.
fn put_expected(out: &mut Writer<'_>, wrong: &[u8], expected: &[u8]) {
    out.put_bytes(wrong);
    out.put_bytes(b"; expected ");
    out.put_bytes(expected);
}

// What was put so far, as far as there was room for it.
pub fn written<'a>(out: &'a Writer<'_>) -> &'a [u8]
    ensures { result.now ≡ take out.now.at out.now.bytes.now }
{
    &out.bytes[..out.at.min(out.bytes.len())]
}

impl<'a> Streams<'a> {
    pub fn of(rt: &HostRuntime, program: &'a [u8]) -> Streams<'a> {
        Streams {
            program,
            out: rt.stdout(),
            err: rt.stderr(),
        }
    }

    // Begins a line for standard error: `PROGRAM: `.
    pub fn begin<'b>(self, text: &'b mut [u8]) -> Writer<'b> {
        let mut out = Writer::new(text);
        out.put_bytes(self.program);
        out.put_bytes(b": ");
        out
    }

    // Ends a line and writes it to standard error, as far as that takes it: at once, so that no other program's line comes between.
    pub fn say(self, out: &mut Writer<'_>) {
        out.put_byte(LINE_FEED);
        let _ = self.err.write_all(written(out));
    }

    // Four complaints, each with other parts between one beginning and one end. `PROGRAM: WRONG; expected EXPECTED`.
    pub fn complain(self, wrong: &[u8], expected: &[u8]) -> Failure
        ensures { result ≡ Trouble }
    {
        let mut text = [0u8; LINE];
        let mut out = self.begin(&mut text);
        put_expected(&mut out, wrong, expected);
        self.say(&mut out);
        Failure::Trouble
    }

    // `PROGRAM: NAME WRONG; expected EXPECTED`.
    pub fn complain_of(self, name: &[u8], wrong: &[u8], expected: &[u8]) -> Failure
        ensures { result ≡ Trouble }
    {
        let mut text = [0u8; LINE];
        let mut out = self.begin(&mut text);
        put_name(&mut out, name);
        out.put_bytes(b" ");
        put_expected(&mut out, wrong, expected);
        self.say(&mut out);
        Failure::Trouble
    }

    // `PROGRAM: ARGUMENT 'TEXT' WRONG; expected EXPECTED`.
    pub fn complain_of_argument(
        self,
        argument: &[u8],
        given: &[u8],
        wrong: &[u8],
        expected: &[u8],
    ) -> Failure
        ensures { result ≡ Trouble }
    {
        let mut text = [0u8; LINE];
        let mut out = self.begin(&mut text);
        out.put_bytes(argument);
        out.put_bytes(b" '");
        put_name(&mut out, given);
        out.put_bytes(b"' ");
        put_expected(&mut out, wrong, expected);
        self.say(&mut out);
        Failure::Trouble
    }

    // `PROGRAM: NAME WRONG: ` and the system's words for why a call of std's failed.
    pub fn complain_of_failure(self, name: &[u8], wrong: &[u8], why: &io::Error) -> Failure
        ensures { result ≡ Trouble }
    {
        let mut text = [0u8; LINE];
        let mut out = self.begin(&mut text);
        put_name(&mut out, name);
        out.put_bytes(b" ");
        out.put_bytes(wrong);
        out.put_bytes(b": ");
        put_reason(&mut out, why);
        self.say(&mut out);
        Failure::Trouble
    }

    // What a call of std's gave, or a complaint of why it failed.
    pub fn or_complain<T>(
        self,
        name: &[u8],
        wrong: &[u8],
        answer: io::Result<T>,
    ) -> Result<T, Failure>
        ensures { MatchResult answer (λ x. result ≡ Ok x) (λ _. result ≡ Err Trouble) }
    {
        match answer {
            Ok(x) => Ok(x),
            Err(why) => Err(self.complain_of_failure(name, wrong, &why)),
        }
    }

    // Writes all of a text to standard output, or complains.
    pub fn print(self, text: &[u8]) -> Result<(), Failure> {
        self.or_complain(
            b"standard output",
            b"could not be written whole; expected room for it",
            self.out.write_all(text),
        )
    }
}
