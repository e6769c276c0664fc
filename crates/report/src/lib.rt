// The listing of a sheet: its text in a lent buffer, byte for byte document 01's.
#![tactic(auto)]

ghost use Rattle.std.specs.Prelude.{◌≡◌, ◌≤◌, leb, length};
ghost use Rattle.line.specs.Text.{put, put_field, put_fields, put_line, Put};
ghost use Rattle.line.specs.Writing.{out_in, Leaves};
ghost use Rattle.sizing.specs.Inner.Rows.{rows_in};
ghost use Rattle.line.specs.Letters.{letters};
ghost use Rattle.report.specs.Listing.{state_word, verdict_word, envelope_fields, clock_fields, link_fields, room_fields, clock_lines, listing_most, fitted_text, over, ListsInto};
ghost use Rattle.report.specs.Inner.Parts.{LinksPut, table_text};

use envelope::Envelope;
use line::{LINE_FEED, Writer};
use link::{Row, Verdict};
use reading::Tables;
use reply::{Cause, Refusal};
use sizing::{Rooms, Rows};

// No listing is longer.
pub const TEXT_MOST: usize = 18_463;

// A state is a number, here and below: so it stands in the sheet and in the tables.
fn put_state(out: &mut Writer<'_>, state: u8)
    ensures { Leaves out.old out.new (put_field (out_in out.old) (state_word state)) }
{
    if state == 1 {
        return out.put_field(b"closed".as_slice());
    }
    out.put_field(b"open".as_slice())
}

fn put_verdict(out: &mut Writer<'_>, v: Verdict)
    ensures { Leaves out.old out.new (put_field (out_in out.old) (verdict_word v)) }
{
    match v {
        Verdict::Accepted(_) => out.put_field(b"accepted".as_slice()),
        Verdict::Rates => out.put_field(b"rates".as_slice()),
        Verdict::Early => out.put_field(b"early".as_slice()),
    }
}

fn put_envelope(out: &mut Writer<'_>, e: Envelope)
    ensures { Leaves out.old out.new (put_fields (out_in out.old) (envelope_fields e)) }
{
    out.put_field(e.k);
    out.put_field(e.K);
    out.put_field(e.l);
    out.put_field(e.n);
}

fn put_clock(out: &mut Writer<'_>, i: usize, state: u8, e: Envelope)
    ensures { Leaves out.old out.new (put_line (out_in out.old) (letters "clock") (clock_fields i state e)) }
{
    out.put_bytes(b"clock");
    out.put_field(i as u64);
    put_state(out, state);
    put_envelope(out, e);
    out.put_byte(LINE_FEED);
}

fn put_link(out: &mut Writer<'_>, i: usize, r: Row)
    ensures { Leaves out.old out.new (put_line (out_in out.old) (letters "link") (link_fields i r)) }
{
    out.put_bytes(b"link");
    out.put_field(i as u64);
    out.put_field(r.producer as u64);
    out.put_field(r.consumer as u64);
    put_state(out, r.state);
    put_verdict(out, r.verdict);
    out.put_field(r.verdict.size());
    out.put_byte(LINE_FEED);
}

fn put_room(out: &mut Writer<'_>, rooms: Rooms)
    ensures { Leaves out.old out.new (put_line (out_in out.old) (letters "room") (room_fields rooms.opened rooms.whole)) }
{
    out.put_bytes(b"room");
    out.put_field(rooms.opened);
    out.put_field(rooms.whole);
    out.put_byte(LINE_FEED);
}

fn put_clocks(out: &mut Writer<'_>, rows: &Rows)
    ensures { Leaves out.old out.new (put (out_in out.old) (clock_lines 0 rows.now.states.now rows.now.nodes.now)) }
{
    // By the index of both tables: of a `zip` the check knows the steps and no index, and the proof didn't close.
    for (i, x) in rows.nodes.iter().enumerate() {
        put_clock(out, i, rows.states[i], x.node().envelope);
    }
}

// The links' lines, and both rooms. They are summed up here and not by a loop of their own, which would judge each link twice.
fn put_links(out: &mut Writer<'_>, rows: &Rows) -> Rooms
    ensures { LinksPut out.old (rows_in rows.now.nodes.now rows.now.states.now rows.now.ends.now) out.new result }
{
    let mut rooms = Rooms::default();
    for (i, ends) in rows.ends.iter().enumerate() {
        let r = rows.row(*ends);
        put_link(out, i, r);
        rooms = rooms.plus(r);
    }
    rooms
}

// The clocks' lines, the links' lines and the room line.
fn put_lines(out: &mut Writer<'_>, rows: &Rows)
    ensures { Leaves out.old out.new (put (out_in out.old) (table_text rows.now.nodes.now rows.now.states.now rows.now.ends.now)) }
{
    put_clocks(out, rows);
    let rooms = put_links(out, rows);
    put_room(out, rooms);
}

// The text into a buffer, from its start on, and its length.
fn put_sheet(text: &mut [u8], rows: &Rows) -> usize
    ensures { Put text.old 0 (table_text rows.now.nodes.now rows.now.states.now rows.now.ends.now) text.new result }
{
    let mut out = Writer::new(text);
    put_lines(&mut out, rows);
    out.at
}

// Whether so many bytes are enough for the text. An empty buffer measures it, where there are fewer than the longest text has.
fn enough(rows: &Rows, room: usize) -> bool
    requires { length (table_text rows.now.nodes.now rows.now.states.now rows.now.ends.now) ≤ listing_most }
    ensures { result ≡ leb (length (table_text rows.now.nodes.now rows.now.states.now rows.now.ends.now)) room }
{
    if TEXT_MOST <= room {
        return true;
    }
    let mut none = [0u8; 0];
    put_sheet(&mut none, rows) <= room
}

fn list_rows(rows: &Rows, text: &mut [u8]) -> Result<usize, Refusal>
    requires { length (table_text rows.now.nodes.now rows.now.states.now rows.now.ends.now) ≤ listing_most }
    ensures listed { result ≡ fitted_text (table_text rows.now.nodes.now rows.now.states.now rows.now.ends.now) (length text.old) }
    ensures text { text.new ≡ over (table_text rows.now.nodes.now rows.now.states.now rows.now.ends.now) text.old }
{
    if enough(rows, text.len()) {
        return Ok(put_sheet(text, rows));
    }
    Err(Refusal::at(Cause::ShortResult, 0))
}

// The listing of any bytes, and its length; or their refusal. A buffer that is too short is refused too. Only where the text fits is anything written.
pub fn list(sheet: &[u8], text: &mut [u8]) -> Result<usize, Refusal>
    ensures { ListsInto sheet.now text.old result text.new }
{
    let mut tables = Tables::empty();
    let found = reading::read(sheet, &mut tables)?;
    list_rows(&Rows::of(&tables, found), text)
}
