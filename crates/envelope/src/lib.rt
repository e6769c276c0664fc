// Envelopes: their limits, the rules that make them, and what a node of an expression comes to.
#![tactic(auto)]

ghost use Rattle.std.specs.Prelude.{◌≡◌, ◌-◌, ◌*◌, ◌≤◌, ◌<◌, ◌^◌, pos, ◌+ℤ◌, ◌*ℤ◌, ◌≤ℤ◌, IfOk};
ghost use Rattle.envelope.specs.Limits.{l_most, lower_least, lower_most};
ghost use Rattle.envelope.specs.Envelope.{Limits, within_limits, has_room, Taken, before_start, result_of, normal_of, not_of, on_of};
ghost use Rattle.envelope.specs.Made.{Fields, number_of, declared_of, limited, negated_of, on_within_limits};
ghost use Rattle.reply.specs.Refusal.{cause_number};
ghost use Rattle.envelope.specs.Inner.Tests.{is_taken};

use reply::Cause;

// `Taken` is no invariant of it, since `is_taken` tests any four numbers and a rule may give an envelope that is refused.
#[derive(Clone, Copy, Debug, PartialEq, Eq)]
pub struct Envelope {
    pub k: i64,
    pub K: i64,
    pub l: u64,
    pub n: u64,
}

// What an evaluated node comes to.
#[derive(Clone, Copy, Debug, PartialEq, Eq)]
pub struct Node {
    pub envelope: Envelope,
}

// Why a rule makes no node of its parts.
#[derive(Clone, Copy, Debug, PartialEq, Eq)]
pub enum Flaw {
    Empty,
    FullRate,
    Outgrown,
}

impl From<Flaw> for Cause {
    ghost from_gives = { λ flaw cause. cause_number cause ≡ number_of flaw };

    fn from(flaw: Flaw) -> Cause {
        match flaw {
            Flaw::Empty => Cause::Empty,
            Flaw::FullRate => Cause::FullRate,
            Flaw::Outgrown => Cause::Outgrown,
        }
    }
}

// What a rule makes of a node's parts.
pub type Made = Result<Node, Flaw>;

impl Envelope {
    pub const L_MOST: u64 = 1_000_000;

    pub const LOWER_LEAST: i64 = -1_000_000_000;

    pub const LOWER_MOST: i64 = 1_000_000_000;

    pub const UPPER_LEAST: i64 = 0;

    pub const UPPER_MOST: i64 = 1_000_000_000;

    // Whether a lower edge of rate one lies before position 0, where no stream starts.
    #[tactic(auto, unfolding(crate::specs::Envelope::before_start))]
    fn before_start(k: i64, l: u64, n: u64) -> bool
        ensures { result ≡ before_start k l n }
    {
        l == 1 && n == 1 && k < 0
    }

    // The one place through which every node's result goes. Four numbers and not an `Envelope`, since they are none before it.
    #[tactic(auto, unfolding(crate::specs::Envelope::result_of))]
    pub fn result(k: i64, K: i64, l: u64, n: u64) -> Envelope
        ensures { result ≡ result_of k K l n }
    {
        if Envelope::before_start(k, l, n) {
            return Envelope { k: 0, K, l, n };
        }
        Envelope { k, K, l, n }
    }

    // The four numbers made normal. Four numbers here too: they are no envelope before it.
    #[tactic(auto, using(crate::proofs::Held::divisor_least, crate::proofs::Held::divisor_most), unfolding(crate::specs::Envelope::normal_of))]
    pub fn normal(k: i64, K: i64, l: u64, n: u64) -> Envelope
        requires { (0 < n) × (n < 2 ^ 63) }
        ensures { result ≡ normal_of k K l n }
    {
        let g = whole::gcd(l, n);
        Envelope::result(whole::ceil_div(k, g), whole::floor_div(K, g), l / g, n / g)
    }

    // 0 and 1 exchanged.
    #[tactic(auto, unfolding(crate::specs::Envelope::not_of))]
    pub fn not(self) -> Envelope
        requires { Taken self × (self.n < self.l) }
        ensures { result ≡ not_of self }
    {
        let n = self.n as i64;
        let l = self.l as i64;
        Envelope::result(
            n - self.K,
            whole::larger_of(0, l - n - self.k),
            self.l,
            self.l - self.n,
        )
    }

    // What the 1s of a stream in self read of a stream in b.
    #[tactic(auto, unfolding(crate::specs::Envelope::on_of))]
    pub fn on(self, b: Envelope) -> Envelope
        requires { Taken self × Taken b }
        ensures { result ≡ on_of self b }
    {
        let k = cross(self.k, b.n, b.k, self.l);
        let top = cross(self.K, b.n, b.K, self.l);
        Envelope::normal(k, top, self.l * b.l, self.n * b.n)
    }

    // Whether l, k and K are within their limits.
    #[tactic(auto, unfolding(crate::specs::Envelope::within_limits))]
    fn within_limits(self) -> bool
        ensures { result ≡ within_limits self }
    {
        let k = self.k;
        let top = self.K;
        Self::LOWER_LEAST <= k
            && k <= Self::LOWER_MOST
            && Self::UPPER_LEAST <= top
            && top <= Self::UPPER_MOST
            && self.l <= Self::L_MOST
    }

    // Whether some stream lies in it, if it is normal.
    #[tactic(auto, unfolding(crate::specs::Envelope::has_room))]
    fn has_room(self) -> bool
        requires { Limits self × (1 ≤ self.n) × (self.n ≤ l_most) }
        ensures { result ≡ has_room self }
    {
        let k = self.k;
        let top = self.K;
        let n = self.n as i64;
        n - 1 <= top - k
    }

    // Whether any four numbers are a taken, normal envelope.
    #[tactic(auto, unfolding(crate::specs::Inner::Tests::is_taken))]
    pub fn is_taken(self) -> bool
        ensures { result ≡ is_taken self }
    {
        self.within_limits()
            && 1 <= self.n
            && self.n <= self.l
            && self.has_room()
            && whole::gcd(self.l, self.n) == 1
            && !Envelope::before_start(self.k, self.l, self.n)
    }

    // A declared node of four fields within their limits. Four numbers here too: they are no envelope before it.
    #[tactic(auto, unfolding(crate::specs::Made::declared_of))]
    pub fn declared(k: i64, K: i64, l: u64, n: u64) -> Made
        requires { Fields k K l n }
        ensures value { result ≡ declared_of k K l n }
        ensures taken { IfOk result (λ x. Taken x.envelope) }
    {
        let e = Envelope::normal(k, K, l, n);
        if e.has_room() {
            return Ok(Node { envelope: e });
        }
        Err(Flaw::Empty)
    }

    #[tactic(auto, unfolding(crate::specs::Made::limited))]
    fn limited_to(self) -> Made
        ensures { result ≡ limited self }
    {
        if self.within_limits() {
            return Ok(Node { envelope: self });
        }
        Err(Flaw::Outgrown)
    }

    #[tactic(auto, unfolding(crate::specs::Made::negated_of))]
    pub fn negated(self) -> Made
        requires { Taken self }
        ensures value { result ≡ negated_of self }
        ensures taken { IfOk result (λ x. Taken x.envelope) }
    {
        if self.l == self.n {
            return Err(Flaw::FullRate);
        }
        self.not().limited_to()
    }

    #[tactic(auto, using(crate::proofs::MadeTaken::on_made), unfolding(crate::specs::Made::on_within_limits))]
    pub fn on_within_limits(self, b: Envelope) -> Made
        requires { Taken self × Taken b }
        ensures value { result ≡ on_within_limits self b }
        ensures taken { IfOk result (λ x. Taken x.envelope) }
    {
        self.on(b).limited_to()
    }
}

// x * n + y * l, of numbers within an envelope's limits.
fn cross(x: i64, n: u64, y: i64, l: u64) -> i64
    requires n_le_l_most { (n ≤ l_most) × (l ≤ l_most) }
    requires lower_least_le_x { (lower_least ≤ℤ x) × (x ≤ℤ lower_most) }
    requires lower_least_le_y { (lower_least ≤ℤ y) × (y ≤ℤ lower_most) }
    ensures { result ≡ x *ℤ pos n +ℤ y *ℤ pos l }
{
    x * (n as i64) + y * (l as i64)
}
