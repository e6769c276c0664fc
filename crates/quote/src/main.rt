// Prints the expression of a clock in hexadecimal: quote FILE CLOCK
#![tactic(auto)]

ghost use Rattle.std.specs.Prelude.{◌≤◌, length};

use line::Writer;
use std::process::ExitCode;
use terminal::{Failure, PATH, Streams, exit_code, input_name, sheet_space};

fn print_expression(to: Streams<'_>, expression: &[u8]) -> Result<(), Failure>
    requires { length expression.now ≤ 32769 }
{
    let mut text = [0u8; 98307];
    let mut out = Writer::new(&mut text);
    dump::put_hex(&mut out, expression);
    let end = out.at;
    to.print(&out.bytes[..end])
}

// An expression is never empty: only for a refusal is the sheet read twice.
fn print_quote(to: Streams<'_>, name: &[u8], sheet: &[u8], clock: usize) -> Result<(), Failure>
    requires { length sheet.now ≤ 32769 }
{
    let part = register::quote(sheet, clock);
    if !part.is_empty() {
        return print_expression(to, part);
    }
    to.or_refuse(Some(name), register::quote_reply(sheet, clock))
}

fn run(rt: &HostRuntime, to: Streams<'_>) -> Result<(), Failure> {
    to.count_arguments(rt, 2, 2, b"FILE CLOCK")?;
    let mut text = [0u8; PATH];
    let (path, clock) = to.clock_arguments(rt, &mut text)?;
    let mut sheet = sheet_space();
    let n = to.read_path(rt, path, &mut sheet)?;
    print_quote(to, input_name(path), &sheet[..n], clock)
}

fn main(rt: HostRuntime) -> ExitCode {
    let to = Streams::of(&rt, b"quote");
    exit_code(run(&rt, to))
}
