// The entry points, each behind the contract that specs/Demands.antt speaks of. The functions here only call them: were a contract below weaker
// than the record that stands here, this crate would not be proved.
#![tactic(auto)]

ghost use Rattle.pattern.specs.Answer.{Checks, Firsts, Nexts};
ghost use Rattle.sizing.specs.WorkOut.{WorksOut};
ghost use Rattle.register.specs.Closing.{Closes};
ghost use Rattle.register.specs.Quoting.{Quotes, RepliesTo};
ghost use Rattle.report.specs.Listing.{ListsInto};

use envelope::Envelope;
use pattern::Answer;
use reply::Refusal;
use sizing::Totals;

pub fn work_out(sheet: &[u8], clocks: &mut [i64], links: &mut [i64]) -> Result<Totals, Refusal>
    ensures { WorksOut sheet.now clocks.old links.old result clocks.new links.new }
{
    sizing::work_out(sheet, clocks, links)
}

pub fn close(sheet: &mut [u8], clock: usize) -> Result<usize, Refusal>
    ensures { Closes sheet.old clock result sheet.new }
{
    register::close(sheet, clock)
}

pub fn quote(sheet: &[u8], clock: usize) -> &[u8]
    ensures { Quotes sheet.now clock sheet.entry.ref_ptr result.now result.ref_ptr }
{
    register::quote(sheet, clock)
}

pub fn quote_reply(sheet: &[u8], clock: usize) -> Result<(), Refusal>
    ensures { RepliesTo sheet.now clock result }
{
    register::quote_reply(sheet, clock)
}

pub fn list(sheet: &[u8], text: &mut [u8]) -> Result<usize, Refusal>
    ensures { ListsInto sheet.now text.old result text.new }
{
    report::list(sheet, text)
}

pub fn check(e: Envelope, pattern: &[u8]) -> Result<Answer, Refusal>
    ensures { Checks e pattern.now result }
{
    pattern::check(e, pattern)
}

pub fn first(e: Envelope, pattern: &mut [u8]) -> Result<Answer, Refusal>
    ensures { Firsts e pattern.old result pattern.new }
{
    pattern::first(e, pattern)
}

pub fn next(e: Envelope, pattern: &mut [u8]) -> Result<Answer, Refusal>
    ensures { Nexts e pattern.old result pattern.new }
{
    pattern::next(e, pattern)
}
