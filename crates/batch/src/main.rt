// Answers cases from standard input by the entry points, as docs/BATCH.md says.
#![tactic(auto)]

mod answer;
mod case;

ghost use Rattle.std.specs.Prelude.{◌≤◌, ◌≤ℤ◌, pos, negsuc, length};

use answer::{put_all, put_number, put_outcome, put_reply};
use case::{Ask, Op, Stop, Turn, head, limited, next_op, read};
use envelope::Envelope;
use field::{HALF_64, from_twos, low_first, put_low_first};
use line::Writer;
use pattern::Answer;
use reply::Refusal;
use sizing::Totals;
use std::io::Print;
use std::process::ExitCode;
use terminal::{Failure, Streams, exit_code, written};

// The most bytes of a sheet or a pattern.
const BODY: usize = 40_000;

// The most numbers that are lent for clocks or for links.
const LENT: usize = 1_024;

// The number that stands for "last": an answer is bytes (docs/BATCH.md).
const LAST: u8 = 255;

// The most bytes that are lent for a text.
const TEXT: usize = 65_536;

// The bytes of a reply's number and place; of those and a text's length.
const REPLY: usize = 9;

const LISTING: usize = 17;

// The most bytes of an answer.
const ANSWER: usize = 65_553;

// Writes an answer; where that fails the run ends.
fn send(rt: &HostRuntime, answer: &[u8]) -> Turn {
    rt.stdout().write_all(answer).map_err(|_| Stop::Unwritten)
}

// What a lent slice holds before the call: number i is first - i.
fn lend(numbers: &mut [i64], first: i64)
    requires { (negsuc 1999 ≤ℤ first) × (first ≤ℤ pos 0) × (length numbers.old ≤ 1024) }
{
    for (i, x) in numbers.iter_mut().enumerate() {
        *x = first - i as i64;
    }
}

// Puts what `work_out` answers beside the lent numbers.
fn put_worked(out: &mut Writer<'_>, r: Result<Totals, Refusal>) {
    put_outcome(out, r.map(|_| 0));
    let totals = r.unwrap_or_default();
    put_number(out, totals.clocks as u64);
    put_number(out, totals.links as u64);
    put_number(out, totals.opened);
    put_number(out, totals.whole);
}

fn worked_out(
    rt: &HostRuntime,
    sheet: &[u8],
    clocks: &mut [i64],
    links: &mut [i64],
    out: &mut [u8; ANSWER],
) -> Turn {
    let mut answer = Writer::new(out);
    put_worked(&mut answer, sizing::work_out(sheet, clocks, links));
    put_all(&mut answer, clocks);
    put_all(&mut answer, links);
    send(rt, written(&answer))
}

// `rt`, `body` and `out` go apart, here and below: a part of `body` is lent on while `out` is written.
fn work_out(rt: &HostRuntime, body: &mut [u8; BODY], out: &mut [u8; ANSWER]) -> Turn {
    let head = head::<12>(rt)?;
    let a = limited(low_first(&head, 0, 4), LENT)?;
    let b = limited(low_first(&head, 4, 4), LENT)?;
    let n = limited(low_first(&head, 8, 4), BODY)?;
    read(rt, &mut body[..n])?;
    let mut clocks = [0i64; LENT];
    let mut links = [0i64; LENT];
    lend(&mut clocks, -1000);
    lend(&mut links, -2000);
    worked_out(rt, &body[..n], &mut clocks[..a], &mut links[..b], out)
}

// The place of closing is that of the byte that it turned.
fn close(rt: &HostRuntime, out: &mut [u8; ANSWER]) -> Turn {
    let head = head::<12>(rt)?;
    let clock = low_first(&head, 0, 8);
    let end = REPLY + limited(low_first(&head, 8, 4), BODY)?;
    read(rt, &mut out[REPLY..end])?;
    let closed = register::close(&mut out[REPLY..end], clock);
    put_outcome(&mut Writer::new(out), closed);
    send(rt, &out[..end])
}

// Number and place of quoting: only a refusal's part is empty, so no other has the sheet read twice.
fn put_quoting(out: &mut Writer<'_>, sheet: &[u8], clock: usize, part: &[u8]) {
    let quoted = if part.is_empty() {
        register::quote_reply(sheet, clock)
    } else {
        Ok(())
    };
    put_outcome(out, quoted.map(|_| 0));
}

// The part is written from where it stands. Apart from `quote`, since the check does not cover a part of what was lent to be read into.
fn quoted(rt: &HostRuntime, sheet: &[u8], clock: usize, out: &mut [u8; ANSWER]) -> Turn {
    let part = register::quote(sheet, clock);
    let mut answer = Writer::new(out);
    put_quoting(&mut answer, sheet, clock, part);
    let mut length = [0u8; 4];
    put_low_first(&mut length, 0, 4, part.len() as u64);
    answer.put_bytes(&length);
    send(rt, written(&answer))?;
    send(rt, part)
}

fn quote(rt: &HostRuntime, body: &mut [u8; BODY], out: &mut [u8; ANSWER]) -> Turn {
    let head = head::<12>(rt)?;
    let clock = low_first(&head, 0, 8);
    let n = limited(low_first(&head, 8, 4), BODY)?;
    read(rt, &mut body[..n])?;
    quoted(rt, &body[..n], clock, out)
}

fn put_answer(out: &mut Writer<'_>, answer: Result<Answer, Refusal>) {
    match answer {
        Ok(Answer::Last) => put_reply(out, LAST, 0),
        _ => put_outcome(out, answer.map(|_| 0)),
    }
}

// Asks about the pattern that was read behind the place of the reply. The answer of check ends before it.
fn pattern(rt: &HostRuntime, ask: Ask, out: &mut [u8; ANSWER]) -> Turn {
    let head = head::<36>(rt)?;
    let e = Envelope {
        k: from_twos(low_first(&head, 0, 8) as u64, HALF_64),
        K: from_twos(low_first(&head, 8, 8) as u64, HALF_64),
        l: low_first(&head, 16, 8) as u64,
        n: low_first(&head, 24, 8) as u64,
    };
    let end = REPLY + limited(low_first(&head, 32, 4), BODY)?;
    read(rt, &mut out[REPLY..end])?;
    let bits = &mut out[REPLY..end];
    // No trait or closure for the three: they are of one type, but for how they take the slice.
    let (answer, sent) = match ask {
        Ask::Check => (pattern::check(e, bits), REPLY),
        Ask::First => (pattern::first(e, bits), end),
        Ask::Next => (pattern::next(e, bits), end),
    };
    put_answer(&mut Writer::new(out), answer);
    send(rt, &out[..sent])
}

// What a lent text holds before the call: byte i is i mod 251.
fn lend_text(text: &mut [u8]) {
    for (i, b) in text.iter_mut().enumerate() {
        *b = (i % 251) as u8;
    }
}

fn put_listed(out: &mut Writer<'_>, listed: Result<usize, Refusal>) {
    put_outcome(out, listed.map(|_| 0));
    put_number(out, listed.unwrap_or(0) as u64);
}

// Lists a sheet into the bytes of the answer from the place of the text on.
fn list(rt: &HostRuntime, body: &mut [u8; BODY], out: &mut [u8; ANSWER]) -> Turn {
    let head = head::<8>(rt)?;
    let end = LISTING + limited(low_first(&head, 0, 4), TEXT)?;
    let n = limited(low_first(&head, 4, 4), BODY)?;
    read(rt, &mut body[..n])?;
    lend_text(&mut out[LISTING..end]);
    let listed = report::list(&body[..n], &mut out[LISTING..end]);
    put_listed(&mut Writer::new(out), listed);
    send(rt, &out[..end])
}

// One case, its first byte in op. By a match, since each operation reads other numbers first.
fn answered(rt: &HostRuntime, op: u8, body: &mut [u8; BODY], out: &mut [u8; ANSWER]) -> Turn {
    match Op::try_from(op)? {
        Op::WorkOut => work_out(rt, body, out),
        Op::Close => close(rt, out),
        Op::Quote => quote(rt, body, out),
        Op::Pattern(ask) => pattern(rt, ask, out),
        Op::List => list(rt, body, out),
    }
}

// Answers cases as long as they come. A proved loop has to end: this one has more turns than any run uses up.
fn answer_all(rt: &HostRuntime) -> Turn {
    let mut body = [0u8; BODY];
    let mut out = [0u8; ANSWER];
    for _ in 0..u64::MAX {
        let Some(op) = next_op(rt)? else {
            return Ok(());
        };
        answered(rt, op, &mut body, &mut out)?;
    }
    Ok(())
}

fn run(rt: &HostRuntime, to: Streams<'_>) -> Result<(), Failure> {
    to.count_arguments(rt, 0, 0, b"none, and cases on standard input")?;
    match answer_all(rt) {
        Ok(()) => Ok(()),
        Err(Stop::Malformed) => {
            let _ = rt.stderr().write_all(b"bad case\n");
            Err(Failure::Trouble)
        }
        Err(Stop::Unread) => Err(to.complain(b"standard input could not be read", b"cases")),
        Err(Stop::Unwritten) => Err(to.complain(
            b"standard output could not be written whole",
            b"room for the answers",
        )),
    }
}

fn main(rt: HostRuntime) -> ExitCode {
    let to = Streams::of(&rt, b"batch");
    exit_code(run(&rt, to))
}
