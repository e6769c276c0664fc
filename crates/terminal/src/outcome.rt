// Lines for standard output, and what a refusal means.
ghost use Rattle.std.specs.Prelude.{◌≡◌, ◌≤◌, IfOk, length, Ok};

use crate::complaint::{LINE, Streams, put_name, written};
use crate::failure::Failure;
use crate::meaning::meaning;
use line::{LINE_FEED, Writer};
use reply::Refusal;

impl Streams<'_> {
    // Prints a word, a number, "at" and a place, or complains.
    fn print_outcome(self, word: &[u8], number: u64, place: usize) -> Result<(), Failure>
        requires { length word.now ≤ 7 }
    {
        let mut text = [0u8; 64];
        let mut out = Writer::new(&mut text);
        out.put_outcome(word, number, place as u64);
        let end = out.at;
        self.print(&out.bytes[..end])
    }

    // Says on standard error what a refusal means: `PROGRAM: FILE: refused NUMBER at PLACE: MEANING`, with the file where a sheet is refused.
    fn say_meaning(self, file: Option<&[u8]>, refusal: Refusal) {
        let mut text = [0u8; LINE];
        let mut out = self.begin(&mut text);
        if let Some(name) = file {
            put_name(&mut out, name);
            out.put_bytes(b": ");
        }
        out.put_bytes(b"refused");
        out.put_field(refusal.number() as u64);
        out.put_field(b"at".as_slice());
        out.put_field(refusal.place as u64);
        out.put_bytes(b": ");
        out.put_bytes(meaning(refusal.cause));
        self.say(&mut out);
    }

    // Prints `refused NUMBER at PLACE`, and says what it means.
    pub fn refuse(self, file: Option<&[u8]>, refusal: Refusal) -> Failure {
        match self.print_outcome(b"refused", refusal.number() as u64, refusal.place) {
            Ok(()) => {
                self.say_meaning(file, refusal);
                Failure::Refused
            }
            Err(failure) => failure,
        }
    }

    // What an entry point answered, or its refusal, told: of the file where there is one.
    pub fn or_refuse<T>(self, file: Option<&[u8]>, answer: Result<T, Refusal>) -> Result<T, Failure>
        ensures { IfOk answer (λ x. result ≡ Ok x) }
    {
        match answer {
            Ok(x) => Ok(x),
            Err(refusal) => Err(self.refuse(file, refusal)),
        }
    }

    // `closed CLOCK at PLACE`.
    pub fn print_closed(self, clock: u64, place: usize) -> Result<(), Failure> {
        self.print_outcome(b"closed", clock, place)
    }

    // `file NAME`.
    pub fn print_file(self, name: &[u8]) -> Result<(), Failure> {
        let mut text = [0u8; LINE];
        let mut out = Writer::new(&mut text);
        out.put_bytes(b"file ");
        put_name(&mut out, name);
        out.put_byte(LINE_FEED);
        self.print(written(&out))
    }
}
