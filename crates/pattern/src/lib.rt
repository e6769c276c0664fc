// Patterns of an envelope: check one, write the first, go to the next.
#![tactic(auto)]

ghost use Rattle.std.specs.Prelude.{◌≡◌, ◌-◌, ◌≤◌, ◌<◌, pos, length, IfSome};
ghost use Rattle.envelope.specs.Envelope.{Taken};
ghost use Rattle.judging.specs.Bytes.{longest, plain};
ghost use Rattle.pattern.specs.Answer.{Checks, Firsts, Nexts};
ghost use Rattle.judging.specs.Inner.Scan.{Near, offset_after};
ghost use Rattle.pattern.specs.Inner.Lifts.{least_at, filled, reached, lift_of};

use envelope::Envelope;
use reply::Refusal;

// What an entry point answers of a pattern that it does not refuse: one type for all three, since `Checks`, `Firsts`, `Nexts` and `Steps` are said of it.
#[derive(Clone, Copy, Debug, PartialEq, Eq)]
pub enum Answer {
    Inside,
    Done,
    Last,
}

// A 0 that could be a 1: its place, and n*i - l*j there.
#[derive(Clone, Copy)]
struct Lift {
    place: usize,
    offset: i64,
}

// n*i - l*j before the bit b, where it is d after it.
fn moved_back(e: Envelope, d: i64, b: u8) -> i64
    requires { Taken e × Near longest d × (b ≤ 1) }
    ensures { offset_after e result b ≡ d }
{
    d - judging::step(e, b)
}

// The smaller bit that may follow.
fn least_at(e: Envelope, d: i64) -> u8
    requires { Taken e }
    ensures { result ≡ least_at e d }
{
    if judging::zero_at(e, d) { 0 } else { 1 }
}

// The last 0 that could be a 1, looked for from the end: a walk turns bits near it.
fn last_lift(e: Envelope, pattern: &[u8], end: i64) -> Option<Lift>
    requires taken { Taken e × (length pattern.now ≤ longest) × (length pattern.now ≤ plain pattern.now) }
    requires end_value { end ≡ reached e (pos 0) pattern.now }
    ensures lift { result ≡ lift_of e pattern.now }
    ensures within { IfSome result (λ m. m.place < length pattern.now) }
{
    let mut d = end;
    for (i, &b) in pattern.iter().enumerate().rev() {
        d = moved_back(e, d, b);
        if b == 0 && judging::one_at(e, d) {
            return Some(Lift {
                place: i,
                offset: d,
            });
        }
    }
    None
}

// Writes the smallest bits that may follow where n*i - l*j is `start`, to the end of a pattern.
fn fill(e: Envelope, rest: &mut [u8], start: i64)
    requires { Taken e × (length rest.old ≤ longest) × Near (longest - length rest.old) start }
    ensures { rest.new ≡ filled e start (length rest.old) }
{
    let mut d = start;
    for bit in rest.iter_mut() {
        let b = least_at(e, d);
        *bit = b;
        d = judging::moved_on(e, d, b);
    }
}

// Inside, or 12 to 15.
pub fn check(e: Envelope, pattern: &[u8]) -> Result<Answer, Refusal>
    ensures { Checks e pattern.now result }
{
    judging::judge(e, pattern)?;
    Ok(Answer::Inside)
}

// Fills the slice with the first pattern, or answers 12 or 13.
pub fn first(e: Envelope, pattern: &mut [u8]) -> Result<Answer, Refusal>
    ensures { Firsts e pattern.old result pattern.new }
{
    judging::admit(e, pattern)?;
    fill(e, pattern, 0);
    Ok(Answer::Done)
}

// Turns the pattern into its successor, answers that it is the last, or 12 to 15.
#[tactic(auto, using(crate::proofs::Answers::next_bad))]
pub fn next(e: Envelope, pattern: &mut [u8]) -> Result<Answer, Refusal>
    ensures { Nexts e pattern.old result pattern.new }
{
    let end = judging::judge(e, pattern)?;
    let Some(Lift { place, offset }) = last_lift(e, pattern, end) else {
        return Ok(Answer::Last);
    };
    pattern[place] = 1;
    let after = judging::moved_on(e, offset, 1);
    fill(e, &mut pattern[place + 1..], after);
    Ok(Answer::Done)
}
