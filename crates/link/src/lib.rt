// Links: the verdict on one, and its row.
#![tactic(auto)]

ghost use Rattle.std.specs.Prelude.{◌≡◌, nat_abs};
ghost use Rattle.envelope.specs.Envelope.{Taken};
ghost use Rattle.link.specs.Link.{size_of, early_of, Passes, verdict_of, verdict_number, size_in, state_of, open_size_of};

use envelope::Envelope;

// An accepted link carries its size in words, the others carry none.
// An enum of its own, and no Result: document 01 names three verdicts, each with a number and a word.
#[derive(Clone, Copy, Debug, PartialEq, Eq)]
pub enum Verdict {
    Accepted(u64),
    Rates,
    Early,
}

// A link's ends, its state (0 open, 1 closed) and its verdict. A state is a byte of the sheet and a number of the result slices, so it stays a number.
#[derive(Clone, Copy, Debug, PartialEq, Eq)]
pub struct Row {
    pub producer: usize,
    pub consumer: usize,
    pub state: u8,
    pub verdict: Verdict,
}

// The second test: the producer may write a word after the consumer must have read it.
#[tactic(auto, using(crate::proofs::Held::early_is))]
fn is_early(e: Envelope, f: Envelope) -> bool
    requires { Taken e × Taken f }
    ensures { result ≡ early_of e f }
{
    let n = e.n as i64;
    n - 1 < e.K - f.k
}

// The size of a link that passes both tests.
fn size(e: Envelope, f: Envelope) -> u64
    requires { Taken e × Taken f × Passes e f }
    ensures { result ≡ nat_abs (size_of e f) }
{
    let n = e.n as i64;
    whole::ceil_div(f.K - (n - 1) - e.k, e.l) as u64
}

// The verdict on a link from a producer in e to a consumer in f.
#[tactic(auto, using(crate::proofs::Links::early_not), unfolding(crate::specs::Link::verdict_of))]
pub fn judge(e: Envelope, f: Envelope) -> Verdict
    requires { Taken e × Taken f }
    ensures { result ≡ verdict_of e f }
{
    if e.l != f.l || e.n != f.n {
        return Verdict::Rates;
    }
    if is_early(e, f) {
        return Verdict::Early;
    }
    Verdict::Accepted(size(e, f))
}

impl Verdict {
    // By a match: an enum of which a variant carries a number has no `as`.
    pub fn number(self) -> u64
        ensures { result ≡ verdict_number self }
    {
        match self {
            Verdict::Accepted(_) => 0,
            Verdict::Rates => 1,
            Verdict::Early => 2,
        }
    }

    pub fn size(self) -> u64
        ensures { result ≡ size_in self }
    {
        match self {
            Verdict::Accepted(size) => size,
            Verdict::Rates | Verdict::Early => 0,
        }
    }
}

// The state of a link, from those of its ends: bytes of the sheet and numbers of the result slices, so they stay numbers.
pub fn state_of(producer: u8, consumer: u8) -> u8
    ensures { result ≡ state_of producer consumer }
{
    if producer == 1 || consumer == 1 { 1 } else { 0 }
}

impl Row {
    // What the link adds to the open room.
    pub fn open_size(self) -> u64
        ensures { result ≡ open_size_of self }
    {
        if self.state == 1 {
            return 0;
        }
        self.verdict.size()
    }
}
