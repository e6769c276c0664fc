// Expressions: the evaluator that calls itself, over tables of nodes that are lent and never copied.
#![tactic(auto)]

mod entry;

ghost use Rattle.std.specs.Prelude.{◌≡◌, ℕ, IfOk};
ghost use Rattle.envelope.specs.Envelope.{Taken};
ghost use Rattle.expression.specs.Evaluate.{worth_of};
ghost use Rattle.field.specs.Field.{read_of};
ghost use Rattle.field.specs.Read.{mapped};
ghost use Rattle.field.specs.Run.{run};
ghost use Rattle.expression.specs.Format.{tags, tag_of, judged, tag};
ghost use Rattle.expression.specs.Reader.{expr_at, node_in};
ghost use Rattle.expression.specs.Inner.Parts.{placed, listed_at, declared_at};
ghost use Rattle.expression.specs.Inner.Skipping.{own_bytes, parts_of, HasExpr};

pub use entry::Entry;
use envelope::{Envelope, Made};
use field::{Cursor, Read};
use reply::Cause;

// What an expression begins with.
#[derive(Clone, Copy, Debug, PartialEq, Eq)]
enum Tag {
    Word,
    Declared,
    Not,
    On,
    Clock,
}

impl TryFrom<usize> for Tag {
    type Error = Cause;

    ghost try_from_gives = { λ number result. judged result ≡ tag_of tags number };

    fn try_from(number: usize) -> Result<Tag, Cause> {
        match number {
            1 => Ok(Tag::Word),
            2 => Ok(Tag::Declared),
            3 => Ok(Tag::Not),
            4 => Ok(Tag::On),
            5 => Ok(Tag::Clock),
            _ => Err(Cause::Unknown),
        }
    }
}

impl Tag {
    // The tag at the cursor.
    #[tactic(auto, unfolding(field::specs::Run::run))]
    fn read(c: Cursor, s: &[u8]) -> Read<Tag>
        ensures { read_of result ≡ run tag s.now c.at }
    {
        let (number, d) = c.field(s, 1)?;
        let tag = Tag::try_from(number).map_err(|cause| c.refusal(cause))?;
        Ok((tag, d))
    }

    // How many bytes a node has besides its parts.
    fn own_bytes(self) -> usize
        ensures { result ≡ own_bytes self }
    {
        match self {
            Tag::Word | Tag::Clock => 3,
            Tag::Declared => 17,
            Tag::Not | Tag::On => 1,
        }
    }

    // How many parts it has.
    fn parts(self) -> usize
        ensures { result ≡ parts_of self }
    {
        match self {
            Tag::Word | Tag::Declared | Tag::Clock => 0,
            Tag::Not => 1,
            Tag::On => 2,
        }
    }
}

// What a rule made, with the cursor past the node, or its refusal at the node's tag.
fn place(made: Made, c: Cursor, tag: Cursor) -> Read<Entry>
    requires { IfOk made (λ x. Taken x.envelope) }
    ensures { read_of result ≡ placed (worth_of made) c.at tag.at }
{
    let x = made.map_err(|flaw| tag.refusal(flaw.into()))?;
    Ok((Entry::of(x), c))
}

// A word or an earlier clock, by its index in a table.
#[tactic(auto, unfolding(crate::specs::Inner::Parts::listed_at))]
fn listed(c: Cursor, s: &[u8], table: &[Entry]) -> Read<Entry>
    ensures { read_of result ≡ listed_at s.now table.now c.at }
{
    let (i, next) = c.field(s, 2)?;
    match table.get(i) {
        Some(x) => Ok((*x, next)),
        None => Err(c.refusal(Cause::Absent)),
    }
}

// A declared node, whose tag stands at `tag`.
#[tactic(auto, unfolding(crate::specs::Inner::Parts::declared_at))]
fn declared(c: Cursor, s: &[u8], tag: Cursor) -> Read<Entry>
    ensures { read_of result ≡ declared_at s.now tag.at c.at }
{
    let (k, c) = c.signed_within(s, Envelope::LOWER_LEAST, Envelope::LOWER_MOST)?;
    let (top, c) = c.signed_within(s, Envelope::UPPER_LEAST, Envelope::UPPER_MOST)?;
    let (l, c) = c.within(s, 4, 1, Envelope::L_MOST as usize + 1, Cause::Beyond)?;
    let (n, c) = c.within(s, 4, 1, l + 1, Cause::Beyond)?;
    place(Envelope::declared(k, top, l as u64, n as u64), c, tag)
}

// An expression, of which `depth` levels are left.
pub fn evaluate(
    start: Cursor,
    s: &[u8],
    words: &[Entry],
    clocks: &[Entry],
    depth: usize,
) -> Read<Entry>
    ensures { read_of result ≡ mapped node_in (expr_at depth s.now words.now clocks.now start.at) }
{
    let (tag, c) = Tag::read(start, s)?;
    if depth == 0 {
        return Err(start.refusal(Cause::TooDeep));
    }
    match tag {
        Tag::Word => listed(c, s, words),
        Tag::Declared => declared(c, s, start),
        // One arm, and no `?`: with an arm and `?` for each, a level takes 368 bytes of stack in place of 256.
        Tag::Not | Tag::On => {
            let left = evaluate(c, s, words, clocks, depth - 1);
            let Ok((x, mut c)) = left else {
                return left;
            };
            let made = if let Tag::Not = tag {
                x.negated()
            } else {
                let right = evaluate(c, s, words, clocks, depth - 1);
                let Ok((y, next)) = right else {
                    return right;
                };
                c = next;
                x.on(y)
            };
            place(made, c, start)
        }
        Tag::Clock => listed(c, s, clocks),
    }
}

// The place past the expression that stands at `start`: `left` counts the expressions still to skip.
#[tactic(auto, using(crate::proofs::Skips::left_start, crate::proofs::Skips::left_none))]
pub fn past(s: &[u8], start: usize) -> usize
    requires { (c : ℕ) × HasExpr s.now start c }
    ensures { (c : ℕ) → HasExpr s.now start c → result ≡ c }
{
    let mut at = start;
    let mut left: usize = 1;
    // No count up to a length: each node says how many are left.
    while 0 < left {
        let tag = Tag::try_from(s[at] as usize).unwrap();
        at += tag.own_bytes();
        left = left - 1 + tag.parts();
    }
    at
}
