// Closing a clock in its file: one byte is written in its place, and nothing else is touched.
ghost use Rattle.std.specs.Prelude.{◌≡◌, ◌<◌, IfOk, length, set};
ghost use Rattle.register.specs.Closing.{Closes};
ghost use Rattle.close.specs.Turning.{place_of};

use reply::Refusal;
use std::fs::{File, Metadata, OpenOptions};
use std::os::unix::fs::FileExt;
use std::{fs, io};
use terminal::{read_whole, sheet_space};

// Why a clock could not be closed in its file.
#[derive(Drop)]
pub enum Unclosed {
    NoRegularFile,
    NotOpened(io::Error),
    NotRead(io::Error),
    Refused(Refusal),
    NotWritten(io::Error),
}

// The byte that a clock's closing turns: its place, and what it is then.
#[derive(Clone, Copy)]
struct Turned {
    place: usize,
    byte: u8,
}

// Closes that very clock in the bytes that were read, or refuses as closing does. To write the one byte makes of the old bytes the new ones.
fn turn(sheet: &mut [u8], clock: usize) -> Result<Turned, Refusal>
    ensures closes { Closes sheet.old clock (place_of result) sheet.new }
    ensures within { IfOk result (λ t. t.place < length sheet.old) }
    ensures one_byte { IfOk result (λ t. sheet.new ≡ set sheet.old t.place t.byte) }
{
    let place = register::close(sheet, clock)?;
    Ok(Turned {
        place,
        byte: sheet[place],
    })
}

fn expect_regular(found: io::Result<Metadata>) -> Result<(), Unclosed> {
    match found {
        Ok(found) if found.is_file() => Ok(()),
        Ok(_) => Err(Unclosed::NoRegularFile),
        Err(why) => Err(Unclosed::NotOpened(why)),
    }
}

// Asked what it is before, since opening a device may wait or do something, and after, since it may have been replaced in between.
// A pipe that is opened for both doesn't wait.
fn open(rt: &HostRuntime, path: &str) -> Result<File, Unclosed> {
    expect_regular(fs::metadata(rt, path))?;
    let file = OpenOptions::new()
        .read(true)
        .write(true)
        .open(rt, path)
        .map_err(Unclosed::NotOpened)?;
    expect_regular(file.metadata())?;
    Ok(file)
}

// Writes the byte in its place, and waits until it has reached the disk.
fn write_through(file: &File, turned: Turned) -> io::Result<()> {
    file.write_all_at(&[turned.byte], turned.place as u64)?;
    file.sync_all()
}

// Closes the clock, and answers the place of its byte. Nothing is printed as long as the file is open: where a standard stream was closed
// before, the file has its number.
pub fn close(rt: &HostRuntime, path: &str, clock: usize) -> Result<usize, Unclosed> {
    let mut file = open(rt, path)?;
    let mut sheet = sheet_space();
    let n = read_whole(&mut file, &mut sheet).map_err(Unclosed::NotRead)?;
    let turned = turn(&mut sheet[..n], clock).map_err(Unclosed::Refused)?;
    write_through(&file, turned).map_err(Unclosed::NotWritten)?;
    Ok(turned.place)
}
