// Closing a clock, and quoting its expression.
#![tactic(auto)]

ghost use Rattle.register.specs.Closing.{Closes};
ghost use Rattle.register.specs.Quoting.{Quotes, RepliesTo};

use reply::{Cause, Refusal};

// Closes a clock: its state byte turns from 0 to 1, and its place is the answer. A refusal writes nothing.
pub fn close(sheet: &mut [u8], clock: usize) -> Result<usize, Refusal>
    ensures { Closes sheet.old clock result sheet.new }
{
    let (at, _) = finding::find(sheet, clock)?;
    if sheet[at] == 1 {
        return Err(Refusal::at(Cause::AlreadyClosed, 0));
    }
    sheet[at] = 1;
    Ok(at)
}

// The very part of the sheet that holds a clock's expression; an empty part of its start where that is refused: where the part lies is promised then too.
pub fn quote(sheet: &[u8], clock: usize) -> &[u8]
    ensures { Quotes sheet.now clock sheet.entry.ref_ptr result.now result.ref_ptr }
{
    match finding::find(sheet, clock) {
        Ok((at, c)) => &sheet[at + 1..c.at],
        Err(_) => &sheet[..0],
    }
}

// Whether a clock can be quoted, or the refusal.
pub fn quote_reply(sheet: &[u8], clock: usize) -> Result<(), Refusal>
    ensures { RepliesTo sheet.now clock result }
{
    finding::find(sheet, clock)?;
    Ok(())
}
