// Words: their bits, read one by one, and their envelopes.
#![tactic(auto)]

ghost use Rattle.std.specs.Prelude.{◌≡◌, ◌-◌, ◌*◌, ◌≤◌, ◌<◌, pos, ◌-ℤ◌, length, take, drop, IfOk};
ghost use Rattle.envelope.specs.Word.{bit_at, ones_in, word_of};
ghost use Rattle.word.specs.Inner.Span.{including_of, span_of};
ghost use Rattle.field.specs.Field.{read_of};
ghost use Rattle.field.specs.Read.{mapped};
ghost use Rattle.expression.specs.Evaluate.{word_node};
ghost use Rattle.sheet.specs.Reader.{bits_at, word_at};
ghost use Rattle.word.specs.Inner.Bits.{word_bits};

use envelope::{Envelope, Node};
use field::{Cursor, Read};
use reply::{Cause, Refusal};

// The longest prefix and the longest period.
pub const BITS_MOST: usize = 64;

// n * t - l * j, of a word's numbers.
fn offset(n: u64, t: u64, l: u64, j: u64) -> i64
    requires { (n ≤ 64) × (t ≤ 128) × (l ≤ 64) × (j ≤ 128) }
    ensures { result ≡ pos (n * t) -ℤ pos (l * j) }
{
    (n * t) as i64 - (l * j) as i64
}

// The smallest and the largest of some numbers.
#[derive(Clone, Copy)]
pub struct Span {
    pub k: i64,
    pub K: i64,
}

impl Span {
    // With one number more, after j others: the caller counts j in any case, so an Option would say its 0 twice.
    fn including(self, x: i64, j: u64) -> Span
        ensures { result ≡ including_of self x j }
    {
        if j == 0 {
            return Span { k: x, K: x };
        }
        Span {
            k: whole::smaller_of(x, self.k),
            K: whole::larger_of(x, self.K),
        }
    }
}

// The smallest and the largest n*p(j) - l*j of a word's bits.
fn offset_span(bits: &[u8], l: u64, n: u64) -> Span
    requires { (l ≤ 64) × (n ≤ 64) × (length bits.now ≤ 128) }
    ensures { result ≡ span_of (bit_at bits.now) l n (length bits.now) }
{
    let mut s = Span { k: 0, K: 0 };
    // Counted by hand: of a filtered chain the check knows the steps, and no count.
    let mut j: u64 = 0;
    for (t, b) in bits.iter().enumerate() {
        if *b == 1 {
            s = s.including(offset(n, t as u64, l, j), j);
            j += 1;
        }
    }
    s
}

// The envelope of a word: its first `prefix` bits, then the others for ever, `ones` of which are 1.
#[tactic(auto, using(whole::proofs::Euclid::gcd_pos))]
fn envelope_of(bits: &[u8], prefix: usize, ones: u64) -> Envelope
    requires prefix_in_bounds { (prefix ≤ length bits.now) × (length bits.now ≤ 128) × (length bits.now - prefix ≤ 64) }
    requires ones_nonzero { (0 < ones) × (ones ≤ 64) × (ones_in (drop prefix bits.now) ≡ ones) }
    ensures { result ≡ word_of (take prefix bits.now) (drop prefix bits.now) }
{
    let period = (bits.len() - prefix) as u64;
    let g = whole::gcd(period, ones);
    let l = period / g;
    let n = ones / g;
    let s = offset_span(bits, l, n);
    Envelope::result(s.k, s.K, l, n)
}

// n bits: how many of them are 1. Where fewer bytes are left, those are tested first.
fn bits(start: Cursor, s: &[u8], n: usize) -> Read<usize>
    requires { start.at ≤ length s.now }
    ensures read { read_of result ≡ mapped ones_in (bits_at n s.now start.at) }
    ensures there { IfOk result (λ x. x.1.at ≤ length s.now) }
{
    let rest = &s[start.at..];
    let there = n.min(rest.len());
    let mut ones: usize = 0;
    for (i, &b) in rest[..there].iter().enumerate() {
        if 1 < b {
            return Err(Refusal::at(Cause::Unknown, start.at + i));
        }
        ones += b as usize;
    }
    let end = Cursor {
        at: start.at + there,
    };
    if there < n {
        return Err(end.refusal(Cause::Missing));
    }
    Ok((ones, end))
}

// The bits of a word: its prefix, then its period.
#[tactic(auto, using(crate::proofs::BitCounts::prefix_refused, crate::proofs::BitCounts::period_refused))]
fn word_bits(start: Cursor, s: &[u8], prefix: usize, period: usize) -> Read<Node>
    requires { (prefix ≤ 64) × (period ≤ 64) × (start.at ≤ length s.now) }
    ensures { read_of result ≡ word_bits prefix period s.now start.at }
{
    let (_, c) = bits(start, s, prefix)?;
    let (ones, d) = bits(c, s, period)?;
    if ones == 0 {
        return Err(c.refusal(Cause::NoOne));
    }
    let envelope = envelope_of(&s[start.at..d.at], prefix, ones as u64);
    Ok((Node { envelope }, d))
}

// A word: its node.
#[tactic(auto, using(crate::proofs::Nodes::word_is))]
pub fn word(start: Cursor, s: &[u8]) -> Read<Node>
    ensures { read_of result ≡ mapped word_node (word_at s.now start.at) }
{
    let (prefix, c) = start.within(s, 1, 0, BITS_MOST + 1, Cause::Beyond)?;
    let (period, d) = c.within(s, 1, 1, BITS_MOST + 1, Cause::Beyond)?;
    word_bits(d, s, prefix, period)
}
