// Lists sheets: size [FILE..]. Without a FILE, or where it is `-`, the sheet comes from standard input.
#![tactic(auto)]

use std::process::ExitCode;
use terminal::{Failure, PATH, Streams, exit_code, input_name, is_given, sheet_space, worse};

// Prints the listing of a sheet, or its refusal.
fn print_listing(to: Streams<'_>, name: &[u8], sheet: &[u8]) -> Result<(), Failure> {
    let mut text = [0u8; report::TEXT_MOST];
    // Not by `or_refuse`: that n is within the text would be lost on the way through it.
    match report::list(sheet, &mut text) {
        Ok(n) => to.print(&text[..n]),
        Err(refusal) => Err(to.refuse(Some(name), refusal)),
    }
}

// Lists a file; after a line with its name where it is one of several.
fn list_path(
    rt: &HostRuntime,
    to: Streams<'_>,
    path: &str,
    is_one_of_several: bool,
) -> Result<(), Failure> {
    let mut sheet = sheet_space();
    let n = to.read_path(rt, path, &mut sheet)?;
    if is_one_of_several {
        to.print_file(path.as_bytes())?;
    }
    print_listing(to, input_name(path), &sheet[..n])
}

fn list_argument(
    rt: &HostRuntime,
    to: Streams<'_>,
    place: usize,
    is_one_of_several: bool,
) -> Result<(), Failure> {
    let mut text = [0u8; PATH];
    let path = to.file_argument(rt, place, &mut text)?;
    list_path(rt, to, path, is_one_of_several)
}

// Lists all that are named, and answers how the worst of them ended.
fn run(rt: &HostRuntime, to: Streams<'_>) -> Result<(), Failure> {
    if !is_given(rt, 1) {
        return list_path(rt, to, "-", false);
    }
    let are_several = is_given(rt, 2);
    let mut all = Ok(());
    for place in 1..usize::MAX {
        if !is_given(rt, place) {
            break;
        }
        all = worse(all, list_argument(rt, to, place, are_several));
    }
    all
}

fn main(rt: HostRuntime) -> ExitCode {
    let to = Streams::of(&rt, b"size");
    exit_code(run(&rt, to))
}
