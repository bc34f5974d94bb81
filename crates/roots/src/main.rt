// Runs the square root: the published roots that standard input has, two roots of document 01, and a spread of its own.
// A published root is compared bit for bit. One of the spread is judged in whole numbers, with no use of the library's way.
#![tactic(auto)]

mod checker;
mod groups;
mod input;
mod tally;

ghost use Rattle.std.specs.Prelude.{◌≡◌, length};

use std::io;
use streams::read_full;

// How much of the input is read: the length of `room`.
const MOST: usize = 65536;

// Room for the input. Only its length is promised, so that no proof counts the zeros.
fn room() -> [u8; 65536]
    ensures { 65536 ≡ length result }
{
    [0; 65536]
}

fn warn_if_full(rt: &impl Print, length: usize) -> io::Result<()> {
    if length == MOST {
        println!(rt; "input: only the first 65536 bytes were read")?;
    }
    Ok(())
}

fn main(rt: HostRuntime) -> io::Result<()> {
    let mut text = room();
    let length = read_full(&mut rt.reader(), &mut text)?;
    warn_if_full(&rt, length)?;
    input::run_published(&rt, &text[..length])?;
    println!(rt; "case 12: {}", groups::case_12())?;
    println!(rt; "powers of two and their neighbours: {}", groups::powers())?;
    println!(rt;
        "a spread of digits at every exponent: {}",
        groups::every_exponent()
    )?;
    println!(rt; "squares and their neighbours: {}", groups::squares())?;
    println!(rt; "special values: {}", groups::special())
}
