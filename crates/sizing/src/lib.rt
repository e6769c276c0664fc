// Works a sheet out: the links' rows from the tables that reading left, and both rooms.
#![tactic(auto)]

ghost use Rattle.std.specs.Prelude.{◌≡◌, List, [], ◌++◌, ℕ, ◌+◌, ◌*◌, ◌≤◌, ◌<◌, length, drop};
ghost use Rattle.std.proofs.lemmas.List.Edits.{sets};
ghost use Rattle.link.specs.Link.{size_in};
ghost use Rattle.field.specs.Read.{Read.got};
ghost use Rattle.envelope.specs.Envelope.{Taken};
ghost use Rattle.sheet.specs.Reader.{read_sheet};
ghost use Rattle.sheet.specs.SheetRead.{SheetRead};
ghost use Rattle.sizing.specs.WorkOut.{clock_numbers, link_numbers, flatten, WorksOut};
ghost use Rattle.sizing.specs.Inner.Rows.{row_at, Ready, FoundIn, InTables, rows_in, rooms_over, rooms_with, Given};

use envelope::Node;
use expression::Entry;
use link::{Row, judge};
use reading::{Ends, Found, Tables, read};
use reply::{Cause, Refusal};

// Numbers per clock, and per link, in the slices that callers lend: flat, as C has them.
const PER_CLOCK: usize = 4;

const PER_LINK: usize = 3;

// A sheet that was read: its clocks' nodes and states, and its links' ends, in tables that are lent.
#[derive(Clone, Copy)]
pub struct Rows<'a> {
    pub nodes: &'a [Entry],
    pub states: &'a [u8],
    pub ends: &'a [Ends],
    pub ghost ready: { Ready nodes.now states.now ends.now },
}

impl<'a> Rows<'a> {
    // What was found, as it stands in the tables.
    pub fn of(tables: &'a Tables, found: Found) -> Rows<'a>
        requires { (s : List ℕ) × FoundIn s found tables.now.nodes tables.now.states tables.now.ends }
        ensures { (s : List ℕ) → FoundIn s found tables.now.nodes tables.now.states tables.now.ends
            → (o : SheetRead) (c : ℕ) → read_sheet s ≡ got o c → InTables o result.nodes.now result.states.now result.ends.now }
    {
        Rows {
            nodes: &tables.nodes[..found.clocks],
            states: &tables.states[..found.clocks],
            ends: &tables.ends[..found.links],
        }
    }

    // The row of a link with these ends.
    pub fn row(&self, ends: Ends) -> Row
        requires { (ends.producer < length self.now.states.now) × (ends.consumer < length self.now.states.now) }
        ensures row { result ≡ row_at self.now.nodes.now self.now.states.now ends }
        ensures small { size_in result.verdict ≤ 3000000000 }
    {
        let p = ends.producer();
        let q = ends.consumer();
        let producer = self.nodes[p].node();
        let consumer = self.nodes[q].node();
        let verdict = judge(producer.envelope, consumer.envelope);
        Row {
            producer: p,
            consumer: q,
            state: link::state_of(self.states[p], self.states[q]),
            verdict,
        }
    }

    // The numbers of the clocks are left in `list`.
    fn fill_clocks(&self, list: &mut [i64])
        requires { 4 * length self.now.nodes.now ≤ length list.old }
        ensures { list.new ≡ flatten clock_numbers self.now.nodes.now ++ drop (4 * length self.now.nodes.now) list.old }
    {
        for (i, x) in self.nodes.iter().enumerate() {
            store_clock(x.node(), list, i);
        }
    }

    // The rows of the links are left in `list`. Not one function with `fill_clocks`: these are summed up too, and each row has its own bounds.
    fn fill_links(&self, list: &mut [i64]) -> Rooms
        requires { 3 * length self.now.ends.now ≤ length list.old }
        ensures rooms { result ≡ rooms_over (rows_in self.now.nodes.now self.now.states.now self.now.ends.now) }
        ensures rows { list.new ≡ flatten link_numbers (rows_in self.now.nodes.now self.now.states.now self.now.ends.now) ++ drop (3 * length self.now.ends.now) list.old }
    {
        let mut rooms = Rooms::default();
        for (i, ends) in self.ends.iter().enumerate() {
            let r = self.row(*ends);
            store_row(r, list, i);
            rooms = rooms.plus(r);
        }
        rooms
    }

    // What the sheet gives: nothing is written unless both slices are long enough.
    fn give(&self, clocks: &mut [i64], links: &mut [i64]) -> Result<Totals, Refusal>
        ensures { Given self.now.nodes.now self.now.states.now self.now.ends.now clocks.old links.old result clocks.new links.new }
    {
        let m = self.nodes.len();
        let n = self.ends.len();
        if clocks.len() < PER_CLOCK * m || links.len() < PER_LINK * n {
            return Err(Refusal::at(Cause::ShortResult, 0));
        }
        self.fill_clocks(clocks);
        let rooms = self.fill_links(links);
        Ok(Totals {
            clocks: m,
            links: n,
            opened: rooms.opened,
            whole: rooms.whole,
        })
    }
}

// k, K, l and n, stored for clock i.
fn store_clock(x: Node, list: &mut [i64], i: usize)
    requires { (4 * i + 3 < length list.old) × Taken x.envelope }
    ensures { list.new ≡ sets list.old (4 * i) (clock_numbers x) }
{
    let e = x.envelope;
    let at = PER_CLOCK * i;
    let k = e.k;
    let top = e.K;
    let l = e.l as i64;
    let n = e.n as i64;
    list[at] = k;
    list[at + 1] = top;
    list[at + 2] = l;
    list[at + 3] = n;
}

// Verdict, size and state, stored for link i. Not one function with `store_clock`: over arrays of numbers it would take two more, which make the arrays.
fn store_row(r: Row, list: &mut [i64], i: usize)
    requires { (3 * i + 2 < length list.old) × (size_in r.verdict ≤ 3000000000) }
    ensures { list.new ≡ sets list.old (3 * i) (link_numbers r) }
{
    let at = PER_LINK * i;
    let v = r.verdict;
    let number = v.number() as i64;
    let size = v.size() as i64;
    let state = r.state as i64;
    list[at] = number;
    list[at + 1] = size;
    list[at + 2] = state;
}

// The sums of sizes over accepted links: open ones, and all.
#[derive(Clone, Copy, Default)]
pub struct Rooms {
    pub opened: u64,
    pub whole: u64,
}

impl Rooms {
    // With one link more. That a size is small stays a clause, here and at `store_row`: the definitions make rows too, and carry no proof.
    pub fn plus(self, r: Row) -> Rooms
        requires { (size_in r.verdict ≤ 3000000000) × (self.opened ≤ 768000000000) × (self.whole ≤ 768000000000) }
        ensures { result ≡ rooms_with self r }
    {
        let v = r.verdict;
        Rooms {
            opened: self.opened + r.open_size(),
            whole: self.whole + v.size(),
        }
    }
}

// What a sheet comes to: both counts and both rooms.
#[derive(Clone, Copy, Debug, Default, PartialEq, Eq)]
pub struct Totals {
    pub clocks: usize,
    pub links: usize,
    pub opened: u64,
    pub whole: u64,
}

// Works a sheet out: k, K, l and n of each clock go to `clocks`, verdict, size and state of each link to `links`.
pub fn work_out(sheet: &[u8], clocks: &mut [i64], links: &mut [i64]) -> Result<Totals, Refusal>
    ensures { WorksOut sheet.now clocks.old links.old result clocks.new links.new }
{
    let mut tables = Tables::empty();
    let found = read(sheet, &mut tables)?;
    Rows::of(&tables, found).give(clocks, links)
}
