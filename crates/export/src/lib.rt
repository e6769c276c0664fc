// The library's entry points under C's calling convention, prefix `txori_`. A slice is a pointer and then a length.
#![tactic(auto)]

ghost use Rattle.std.specs.Prelude.{◌≡◌};
ghost use Rattle.sizing.specs.WorkOut.{WorksOut};
ghost use Rattle.register.specs.Closing.{Closes};
ghost use Rattle.envelope.specs.Envelope.{numbers};
ghost use Rattle.pattern.specs.Answer.{Checks, Firsts, Nexts};
ghost use Rattle.report.specs.Listing.{ListsInto};
ghost use Rattle.line.specs.Text.{Put};
ghost use Rattle.export.specs.Flat.{work_out_reply, refusal_reply, close_reply, answer_reply, list_written};
ghost use Rattle.export.specs.Promise.{As, Copies};

use envelope::Envelope;
use line::Writer;
use pattern::Answer;
use reply::{Cause, Refusal};
use sizing::Totals;

// The number that stands for "last": no refusal has it. A number, as C has no `Option` or `Result`.
const LAST: u64 = 255;

// A refusal's number and place, or what the entry point says of a success. Flat, here and below, since C has no `Result`.
#[repr(C)]
#[derive(Clone, Copy)]
pub struct TxoriReply {
    pub number: u64,
    pub place: u64,
}

impl From<Refusal> for TxoriReply {
    ghost from_gives = { λ r reply. reply ≡ refusal_reply r };

    fn from(r: Refusal) -> TxoriReply {
        TxoriReply {
            number: r.number() as u64,
            place: r.place as u64,
        }
    }
}

// Of closing: 0 and the place of the byte that was turned.
impl From<Result<usize, Refusal>> for TxoriReply {
    ghost from_gives = { λ answer reply. reply ≡ close_reply answer };

    fn from(answer: Result<usize, Refusal>) -> TxoriReply {
        match answer {
            Ok(place) => TxoriReply {
                number: 0,
                place: place as u64,
            },
            Err(e) => TxoriReply::from(e),
        }
    }
}

// Of a pattern.
impl From<Result<Answer, Refusal>> for TxoriReply {
    ghost from_gives = { λ answer reply. reply ≡ answer_reply answer };

    fn from(answer: Result<Answer, Refusal>) -> TxoriReply {
        match answer {
            Ok(Answer::Inside | Answer::Done) => TxoriReply {
                number: 0,
                place: 0,
            },
            Ok(Answer::Last) => TxoriReply {
                number: LAST,
                place: 0,
            },
            Err(e) => TxoriReply::from(e),
        }
    }
}

// What working a sheet out answers.
#[repr(C)]
#[derive(Clone, Copy)]
pub struct TxoriWorkOut {
    pub number: u64,
    pub place: u64,
    pub clocks: u64,
    pub links: u64,
    pub opened: u64,
    pub whole: u64,
}

impl From<Result<Totals, Refusal>> for TxoriWorkOut {
    ghost from_gives = { λ answer reply. reply ≡ work_out_reply answer };

    fn from(answer: Result<Totals, Refusal>) -> TxoriWorkOut {
        match answer {
            Ok(t) => TxoriWorkOut {
                number: 0,
                place: 0,
                clocks: t.clocks as u64,
                links: t.links as u64,
                opened: t.opened,
                whole: t.whole,
            },
            Err(e) => TxoriWorkOut {
                number: e.number() as u64,
                place: e.place as u64,
                clocks: 0,
                links: 0,
                opened: 0,
                whole: 0,
            },
        }
    }
}

// What was written into a lent buffer: how many bytes, from its start on.
#[repr(C)]
#[derive(Clone, Copy)]
pub struct TxoriWritten {
    pub number: u64,
    pub place: u64,
    pub length: u64,
}

impl From<Result<usize, Refusal>> for TxoriWritten {
    ghost from_gives = { λ answer reply. reply ≡ list_written answer };

    fn from(answer: Result<usize, Refusal>) -> TxoriWritten {
        match answer {
            Ok(length) => TxoriWritten {
                number: 0,
                place: 0,
                length: length as u64,
            },
            Err(e) => TxoriWritten {
                number: e.number() as u64,
                place: e.place as u64,
                length: 0,
            },
        }
    }
}

#[unsafe(no_mangle)]
pub extern "C" fn txori_work_out(
    sheet: &[u8],
    clocks: &mut [i64],
    links: &mut [i64],
) -> TxoriWorkOut
    ensures { As work_out_reply (λ a. WorksOut sheet.now clocks.old links.old a clocks.new links.new) result }
{
    TxoriWorkOut::from(sizing::work_out(sheet, clocks, links))
}

#[unsafe(no_mangle)]
pub extern "C" fn txori_close(sheet: &mut [u8], clock: usize) -> TxoriReply
    ensures { As close_reply (λ a. Closes sheet.old clock a sheet.new) result }
{
    TxoriReply::from(register::close(sheet, clock))
}

// Not by `copy_from_slice`, which calls memmove: the library promises to call nothing but memcpy and memset.
fn put_part(out: &mut [u8], part: &[u8]) -> usize
    ensures { Put out.old 0 part.now out.new result }
{
    let mut writer = Writer::new(out);
    writer.put_bytes(part);
    writer.at
}

// The part is copied, since no reference crosses as a result, and not begun where it can't be held. Only a refusal's is empty.
fn copy(sheet: &[u8], clock: usize, out: &mut [u8]) -> Result<usize, Refusal>
    ensures { Copies sheet.now clock sheet.entry.ref_ptr out.old (list_written result) out.new }
{
    let part = register::quote(sheet, clock);
    if part.is_empty() {
        register::quote_reply(sheet, clock)?;
    }
    if out.len() < part.len() {
        return Err(Refusal::at(Cause::ShortResult, 0));
    }
    Ok(put_part(out, part))
}

#[unsafe(no_mangle)]
pub extern "C" fn txori_quote(sheet: &[u8], clock: usize, out: &mut [u8]) -> TxoriWritten
    ensures { Copies sheet.now clock sheet.entry.ref_ptr out.old result out.new }
{
    TxoriWritten::from(copy(sheet, clock, out))
}

#[unsafe(no_mangle)]
pub extern "C" fn txori_list(sheet: &[u8], text: &mut [u8]) -> TxoriWritten
    ensures { As list_written (λ a. ListsInto sheet.now text.old a text.new) result }
{
    TxoriWritten::from(report::list(sheet, text))
}

#[unsafe(no_mangle)]
pub extern "C" fn txori_check(k: i64, K: i64, l: u64, n: u64, pattern: &[u8]) -> TxoriReply
    ensures { As answer_reply (λ a. Checks (numbers k K l n) pattern.now a) result }
{
    TxoriReply::from(pattern::check(Envelope { k, K, l, n }, pattern))
}

#[unsafe(no_mangle)]
pub extern "C" fn txori_first(k: i64, K: i64, l: u64, n: u64, pattern: &mut [u8]) -> TxoriReply
    ensures { As answer_reply (λ a. Firsts (numbers k K l n) pattern.old a pattern.new) result }
{
    TxoriReply::from(pattern::first(Envelope { k, K, l, n }, pattern))
}

#[unsafe(no_mangle)]
pub extern "C" fn txori_next(k: i64, K: i64, l: u64, n: u64, pattern: &mut [u8]) -> TxoriReply
    ensures { As answer_reply (λ a. Nexts (numbers k K l n) pattern.old a pattern.new) result }
{
    TxoriReply::from(pattern::next(Envelope { k, K, l, n }, pattern))
}
