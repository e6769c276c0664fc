// Whether a pattern is inside an envelope.
#![tactic(auto)]

ghost use Rattle.std.specs.Prelude.{◌≡◌, ◌<◌, ◌≤◌, length, pos, ◌+ℤ◌, ◌≤ℤ◌, IfSome, Ok};
ghost use Rattle.envelope.specs.Envelope.{Taken};
ghost use Rattle.judging.specs.Bytes.{longest, plain};
ghost use Rattle.judging.specs.Inner.Scan.{Near, one_at, zero_at, may_at, step_of, offset_after, scanned, leading_of, floor_of, largest_from, Swept, admitted, end_offset};

use envelope::Envelope;
use reply::{Cause, Refusal};

// A pattern's most bits.
pub const LONGEST: usize = 4_096;

// e and d stay two parameters, and Taken and a pattern's bounds clauses: e is one through a pattern and d new at each bit, `next` writes the pattern, and envelope's methods ask for Taken too.

// Whether a 1 may follow where n*i - l*j is d.
#[tactic(auto, unfolding(crate::specs::Inner::Scan::one_at))]
pub fn one_at(e: Envelope, d: i64) -> bool
    requires { Taken e }
    ensures { result ≡ one_at e d }
{
    e.k <= d && d <= e.K
}

// Whether a 0 may follow there.
#[tactic(auto, unfolding(crate::specs::Inner::Scan::zero_at))]
pub fn zero_at(e: Envelope, d: i64) -> bool
    requires { Taken e }
    ensures { result ≡ zero_at e d }
{
    d <= e.K - (e.n as i64)
}

// Whether the bit b may follow there.
fn may_follow(e: Envelope, d: i64, b: u8) -> bool
    requires { Taken e }
    ensures { result ≡ may_at e d b }
{
    if b == 0 { zero_at(e, d) } else { one_at(e, d) }
}

// What the bit b adds to n*i - l*j: a product takes no branch.
pub fn step(e: Envelope, b: u8) -> i64
    requires { Taken e × (b ≤ 1) }
    ensures { result ≡ step_of e b }
{
    e.n as i64 - (e.l * (b as u64)) as i64
}

// n*i - l*j after the bit b.
pub fn moved_on(e: Envelope, d: i64, b: u8) -> i64
    requires { Taken e × Near longest d × (b ≤ 1) }
    ensures { result ≡ offset_after e d b }
{
    d + step(e, b)
}

// One pass: the first forbidden step, or n*i - l*j past the end.
fn scan(e: Envelope, pattern: &[u8]) -> Result<i64, Refusal>
    requires { Taken e × (length pattern.now ≤ longest) × (length pattern.now ≤ plain pattern.now) }
    ensures { result ≡ scanned e 0 (pos 0) pattern.now }
{
    let mut d: i64 = 0;
    for (i, &b) in pattern.iter().enumerate() {
        if !may_follow(e, d, b) {
            return Err(Refusal::at(Cause::Outside, i));
        }
        d = moved_on(e, d, b);
    }
    Ok(d)
}

// How many 0s a pattern begins with.
fn leading(pattern: &[u8]) -> usize
    ensures number { result ≡ leading_of pattern.now }
    ensures within { result ≤ length pattern.now }
{
    pattern.iter().take_while(|b| **b == 0).count()
}

// The least n*i - l*j that a 1 may leave behind.
fn floor(e: Envelope) -> i64
    requires { Taken e }
    ensures { result ≡ floor_of e }
{
    e.k + step(e, 1)
}

// How far x is above `low`.
fn above(x: i64, low: i64) -> u64
    requires { Near longest x × Near longest low × (low ≤ℤ x) }
    ensures { pos result +ℤ low ≡ x }
{
    (x - low) as u64
}

// How far above the floor some bits end, where they begin at `start`; None where they pass the room. Below the floor a number wraps and is large: one test a bit.
// Out of line: no jump of its loop ends a line of 32 bytes then, at either place where it can be linked; with one that does, many Intel processors take twice
// as long for it.
#[inline(never)]
fn sweep(e: Envelope, room: u64, bits: &[u8], start: u64) -> Option<u64>
    requires taken { Taken e × (length bits.now ≤ plain bits.now) }
    requires e_value { (pos room +ℤ floor_of e ≡ e.K) × (start ≤ room) }
    ensures { IfSome result (λ x. (x ≤ room) × Swept e (pos start +ℤ floor_of e) bits.now (pos x +ℤ floor_of e)) }
{
    let mut x = start;
    for &b in bits {
        let step = e.n.wrapping_sub(e.l * (b as u64));
        x = x.wrapping_add(step);
        if room < x {
            // Not a `return`: with one the compiler adds a jump for each bit.
            break;
        }
    }
    if x <= room { Some(x) } else { None }
}

// The same from the start: no 1 stands before `leading`, so that none can be too early there.
fn height(e: Envelope, low: i64, room: u64, pattern: &[u8]) -> Option<u64>
    requires taken { Taken e × (length pattern.now ≤ longest) × (length pattern.now ≤ plain pattern.now) }
    requires low_value { (low ≡ floor_of e) × (pos room +ℤ low ≡ e.K) }
    ensures { IfSome result (λ x. (x ≤ room) × (scanned e 0 (pos 0) pattern.now ≡ Ok (pos x +ℤ floor_of e))) }
{
    let from = leading(pattern);
    let start = (e.n * (from as u64)) as i64;
    if start < low || e.K < start {
        return None;
    }
    sweep(e, room, &pattern[from..], above(start, low))
}

// The first forbidden step, or n*i - l*j past the end; looked for bit by bit only where a sweep finds one, or can't tell.
fn sweep_or_scan(e: Envelope, pattern: &[u8]) -> Result<i64, Refusal>
    requires { Taken e × (length pattern.now ≤ longest) × (length pattern.now ≤ plain pattern.now) }
    ensures { result ≡ scanned e 0 (pos 0) pattern.now }
{
    let low = floor(e);
    let room = above(e.K, low);
    match height(e, low, room, pattern) {
        Some(x) => Ok(x as i64 + low),
        None => scan(e, pattern),
    }
}

// The largest byte: a loop with no way out, of which the compiler makes vectors.
fn largest(pattern: &[u8]) -> u8
    ensures { result ≡ largest_from 0 pattern.now }
{
    pattern.iter().fold(0, |most, b| most.max(*b))
}

// How many bytes come before the first that is neither 0 nor 1.
#[tactic(auto, using(crate::proofs::Loops::largest_plain))]
fn plain_len(pattern: &[u8]) -> usize
    ensures { result ≡ plain pattern.now }
{
    if largest(pattern) <= 1 {
        return pattern.len();
    }
    pattern.iter().take_while(|b| **b <= 1).count()
}

// 12 where four numbers are no taken envelope, 13 where a pattern is too long.
pub fn admit(e: Envelope, pattern: &[u8]) -> Result<(), Refusal>
    ensures { result ≡ admitted e pattern.now (Ok tt) }
{
    if !e.is_taken() {
        return Err(Refusal::at(Cause::NoEnvelope, 0));
    }
    if LONGEST < pattern.len() {
        return Err(Refusal::at(Cause::LongPattern, 0));
    }
    Ok(())
}

// 12 to 15, or n*i - l*j past a pattern that is inside.
#[tactic(auto, using(reply::proofs::Refusals::passed_on, crate::proofs::Admitted::not_admitted, crate::proofs::Admitted::is_admitted), unfolding(crate::specs::Inner::Scan::end_offset))]
pub fn judge(e: Envelope, pattern: &[u8]) -> Result<i64, Refusal>
    ensures { result ≡ end_offset e pattern.now }
{
    admit(e, pattern)?;
    let plain = plain_len(pattern);
    if plain < pattern.len() {
        return Err(Refusal::at(Cause::NotABit, plain));
    }
    sweep_or_scan(e, pattern)
}
