// Reads a design sheet once from left to right: words, clocks and links as sections of rows, each left in its table.
#![tactic(auto)]

mod ends;

ghost use Rattle.std.specs.Prelude.{◌≡◌, [], ◌≤◌, pos, replicate};
ghost use Rattle.envelope.specs.Envelope.{numbers};
ghost use Rattle.envelope.specs.Made.{node_of};
ghost use Rattle.field.specs.Field.{read_of};
ghost use Rattle.sheet.specs.Sheet.{clocks_most, links_most};
ghost use Rattle.sheet.specs.Reader.{rows_at, section_at, clock_at, link_at, read_sheet};
ghost use Rattle.reading.specs.Inner.Sections.{WordRows, ClockRows, marked_at, reading_of, Tabled, LinkRows, ToEnd, FromClocks};

pub use ends::Ends;
use expression::{Entry, evaluate};
use field::{Cursor, Read};
use reply::{Cause, Refusal};

pub const BYTES_MOST: usize = 32_768;

pub const WORDS_MOST: usize = 64;

pub const CLOCKS_MOST: usize = 128;

pub const LINKS_MOST: usize = 256;

// How deep nodes nest.
pub const DEPTH_MOST: usize = 12;

// The words section: how many words there are, and the cursor past them; their nodes are left in `table`.
// A loop by index, as for clocks, which read the front of their own table, and for links: nothing is known of a lent table after a closure stored in it, and a trait takes three structs and impls for four lines.
fn read_words(start: Cursor, s: &[u8], table: &mut [Entry; 64]) -> Read<usize>
    ensures { WordRows s.now start.at result table.new }
{
    let (n, d) = start.within(s, 2, 0, WORDS_MOST + 1, Cause::Beyond)?;
    let mut c = d;
    for i in 0..n {
        let (x, next) = word::word(c, s)?;
        table[i] = Entry::of(x);
        c = next;
    }
    Ok((n, c))
}

// A clock's state and node. A state is a byte of the sheet and a number of the result slices, so it stays a number.
#[derive(Clone, Copy)]
pub struct Mark {
    pub state: u8,
    pub node: Entry,
}

// A clock, after those whose nodes are in `clocks`.
#[tactic(auto, unfolding(crate::specs::Inner::Sections::marked_at))]
fn clock(start: Cursor, s: &[u8], words: &[Entry], clocks: &[Entry]) -> Read<Mark>
    ensures { read_of result ≡ marked_at s.now words.now clocks.now start.at }
{
    let (state, c) = start.within(s, 1, 0, 2, Cause::Unknown)?;
    let (node, d) = evaluate(c, s, words, clocks, DEPTH_MOST)?;
    Ok((
        Mark {
            state: state as u8,
            node,
        },
        d,
    ))
}

// n clocks: the cursor past them; their nodes and states are left in the tables.
// That n is at most 128 stays a clause, here and below: a type for a count would be unpacked at each use.
fn clock_rows(
    start: Cursor,
    s: &[u8],
    words: &[Entry],
    n: usize,
    tables: &mut Tables,
) -> Read<usize>
    requires { n ≤ clocks_most }
    ensures { ClockRows (rows_at (clock_at s.now words.now) n [] start.at) result tables.new.nodes tables.new.states }
{
    let mut c = start;
    for i in 0..n {
        let (mark, next) = clock(c, s, words, &tables.nodes[..i])?;
        tables.nodes[i] = mark.node;
        tables.states[i] = mark.state;
        c = next;
    }
    Ok((n, c))
}

// The clocks section: how many clocks there are, and the cursor past them; their nodes and states are left in the tables.
fn read_clocks(start: Cursor, s: &[u8], words: &[Entry], tables: &mut Tables) -> Read<usize>
    ensures { ClockRows (section_at (clock_at s.now words.now) clocks_most s.now start.at) result tables.new.nodes tables.new.states }
{
    let (n, c) = start.within(s, 2, 0, CLOCKS_MOST + 1, Cause::Beyond)?;
    clock_rows(c, s, words, n, tables)
}

// A link between two of n clocks.
#[tactic(auto, unfolding(sheet::specs::Reader::link_at))]
fn link_ends(start: Cursor, s: &[u8], n: usize) -> Read<Ends>
    requires { n ≤ clocks_most }
    ensures { read_of result ≡ link_at s.now n [] start.at }
{
    let (i, c) = start.within(s, 2, 0, n, Cause::Absent)?;
    let (j, d) = c.within(s, 2, 0, n, Cause::Absent)?;
    Ok((Ends::of(i, j), d))
}

// The links section: how many links there are between n clocks, and the cursor past them; their ends are left in `ends`.
fn read_links(start: Cursor, s: &[u8], n: usize, ends: &mut [Ends; 256]) -> Read<usize>
    requires { n ≤ clocks_most }
    ensures { LinkRows (section_at (link_at s.now n) links_most s.now start.at) result ends.new }
{
    let (many, d) = start.within(s, 2, 0, LINKS_MOST + 1, Cause::Beyond)?;
    let mut c = d;
    for i in 0..many {
        let (link, next) = link_ends(c, s, n)?;
        ends[i] = link;
        c = next;
    }
    Ok((many, c))
}

// What a sheet that was read holds: how many clocks and links, and where the clocks' rows begin.
#[derive(Clone, Copy)]
pub struct Found {
    pub clocks: usize,
    pub links: usize,
    pub clockrows: usize,
}

// What reading leaves of a sheet: its clocks' nodes and states, and its links' ends. They are lent, and never copied. Nodes and states stand apart, since an
// expression reads the nodes of words and of clocks alike, and no states.
#[derive(Drop)]
pub struct Tables {
    pub nodes: [Entry; 128],
    pub states: [u8; 128],
    pub ends: [Ends; 256],
}

impl Tables {
    // With nothing in them yet.
    pub fn empty() -> Tables
        ensures { (result.nodes ≡ replicate 128 (node_of (numbers (pos 0) (pos 0) 1 1))) × (result.states ≡ replicate 128 0) × (result.ends ≡ replicate 256 (record { producer = 0; consumer = 0 })) }
    {
        Tables {
            nodes: [Entry::full(); 128],
            states: [0; 128],
            ends: [Ends::of(0, 0); 256],
        }
    }
}

// The links between m clocks, and nothing after them: their ends are left in `ends`. The clocks' rows begin at `first`.
fn read_to_end(
    first: usize,
    start: Cursor,
    s: &[u8],
    m: usize,
    ends: &mut [Ends; 256],
) -> Result<Found, Refusal>
    requires { m ≤ clocks_most }
    ensures { ToEnd s.now first start.at m result ends.new }
{
    let (n, c) = read_links(start, s, m, ends)?;
    if c.at != s.len() {
        return Err(c.refusal(Cause::Trailing));
    }
    Ok(Found {
        clocks: m,
        links: n,
        clockrows: first,
    })
}

// The clocks over the words' nodes, and what follows them: each is left in its table.
#[tactic(auto, using(crate::proofs::Sections::Stages::few_clocks, crate::proofs::Sections::Stages::count_within))]
fn read_from_clocks(
    start: Cursor,
    s: &[u8],
    words: &[Entry],
    tables: &mut Tables,
) -> Result<Found, Refusal>
    ensures { FromClocks s.now start.at words.now result tables.new.nodes tables.new.states tables.new.ends }
{
    let (m, c) = read_clocks(start, s, words, tables)?;
    read_to_end(start.at + 2, c, s, m, &mut tables.ends)
}

// Reads a whole sheet, of which the tables keep what stands in its rows.
pub fn read(s: &[u8], tables: &mut Tables) -> Result<Found, Refusal>
    ensures found { result ≡ reading_of (read_sheet s.now) }
    ensures tables { Tabled (read_sheet s.now) tables.new.nodes tables.new.states tables.new.ends }
{
    if BYTES_MOST < s.len() {
        return Err(Refusal::at(Cause::Beyond, BYTES_MOST));
    }
    let mut list = [Entry::full(); 64];
    let (w, c) = read_words(Cursor { at: 0 }, s, &mut list)?;
    read_from_clocks(c, s, &list[..w], tables)
}
