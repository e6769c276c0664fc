// The system's words for a failure.
use crate::complaint::written;
use line::Writer;
use std::fmt::Write;
use std::{fmt, io};

// A writer of text that std can print into.
#[derive(Drop)]
struct Printed<'a> {
    out: Writer<'a>,
}

impl Write for Printed<'_> {
    fn write_str(&mut self, s: &str) -> fmt::Result {
        self.out.put_bytes(s.as_bytes());
        Ok(())
    }
}

// Puts what std prints of a failure: the system's words, without the ` (os error NUMBER)` that ends them.
pub fn put_reason(out: &mut Writer<'_>, why: &io::Error) {
    let mut text = [0u8; 96];
    let mut printed = Printed {
        out: Writer::new(&mut text),
    };
    let _ = write!(printed, "{why}");
    out.put_bytes(words(written(&printed.out)));
}

// A text up to the blank and the bracket that open its number, or all of it where it has none.
fn words(text: &[u8]) -> &[u8] {
    let past_the_first = text.get(1..).unwrap_or(text);
    match past_the_first.iter().rposition(|b| *b == b'(') {
        Some(blank) => &text[..blank],
        None => text,
    }
}
