// A node as tables keep it.
ghost use Rattle.std.specs.Prelude.{◌≡◌, pos, IfOk};
ghost use Rattle.envelope.specs.Envelope.{numbers, Taken};
ghost use Rattle.envelope.specs.Made.{node_of, negated_of, on_within_limits};

use envelope::{Envelope, Made, Node};
use std::marker::Model;

// Four numbers of 32 bits, which every taken envelope fits: half of what a `Node` takes, since tables stand on the stack.
// l and n stand less 1, so that zeros are an entry: a table that begins with anything else is made elsewhere and copied.
#[derive(Clone, Copy)]
pub struct Entry {
    k: i32,
    K: i32,
    l_less_one: u32,
    n_less_one: u32,
}

impl Model for Entry {
    ghost use Rattle.std.specs.Prelude.{◌+◌, ◌-◌};
    ghost use Rattle.envelope.specs.declared.Node.{Node};
    ghost use Rattle.envelope.specs.Envelope.{numbers, Taken};
    ghost use Rattle.envelope.specs.Made.{node_of};

    ghost Value = { Node };

    ghost view = { λ x. node_of (numbers x.k x.K (x.l_less_one + 1) (x.n_less_one + 1)) };

    ghost invariant = { λ x. Taken (numbers x.k x.K (x.l_less_one + 1) (x.n_less_one + 1)) };

    ghost inverse = { λ x. record { k = x.envelope.k; K = x.envelope.K; l_less_one = x.envelope.l - 1; n_less_one = x.envelope.n - 1 } };

    ghost use Rattle.std.proofs.Math.Nat.{add-sub_cancel};

    ghost inverse_ok = { λ x h i. record { k = x.k; K = x.K; l_less_one = add-sub_cancel x.l_less_one 1 i; n_less_one = add-sub_cancel x.n_less_one 1 i } };
}

impl Entry {
    // Not `From`, since it asks for a taken node.
    pub fn of(x: Node) -> Entry
        requires { Taken x.envelope }
        ensures { result ≡ x }
    {
        let e = x.envelope;
        Entry {
            k: e.k as i32,
            K: e.K as i32,
            l_less_one: (e.l - 1) as u32,
            n_less_one: (e.n - 1) as u32,
        }
    }

    // Full rate from position 0 on: what a table holds before a node is stored.
    pub fn full() -> Entry
        ensures { result ≡ node_of (numbers (pos 0) (pos 0) 1 1) }
    {
        Entry {
            k: 0,
            K: 0,
            l_less_one: 0,
            n_less_one: 0,
        }
    }

    // Not `From`, since it says too that the node is taken.
    pub fn node(self) -> Node
        ensures node { result ≡ self }
        ensures taken { Taken result.envelope }
    {
        Node {
            envelope: Envelope {
                k: self.k as i64,
                K: self.K as i64,
                l: self.l_less_one as u64 + 1,
                n: self.n_less_one as u64 + 1,
            },
        }
    }

    // What not makes of it. Not inlined, as `on`: up to thirteen calls of `evaluate` are open, and each would hold a rule's numbers.
    #[inline(never)]
    pub fn negated(self) -> Made
        ensures value { result ≡ negated_of self.envelope }
        ensures taken { IfOk result (λ x. Taken x.envelope) }
    {
        self.node().envelope.negated()
    }

    // What its 1s read of the other.
    #[inline(never)]
    pub fn on(self, read: Entry) -> Made
        ensures value { result ≡ on_within_limits self.envelope read.envelope }
        ensures taken { IfOk result (λ x. Taken x.envelope) }
    {
        self.node().envelope.on_within_limits(read.node().envelope)
    }
}
