// Replays the fixed list of the original's answers: a line is a call with its inputs, the answer and the outputs, as words.
// It prints how many cases of each call agree, names the first line that does not, and needs no Rust.
#![tactic(auto)]

mod report;

ghost use Rattle.std.specs.Prelude.{◌≡◌, length};

use std::io;
use streams::read_full;

// Room for the list. Only its length is promised, so that no proof counts the zeros.
fn room() -> [u8; 1572864]
    ensures { 1572864 ≡ length result }
{
    [0; 1572864]
}

fn warn_if_full(rt: &impl Print, length: usize) -> io::Result<()> {
    if length == 1572864 {
        println!(rt; "input: 1572864 bytes or more, its end was not read")?;
    }
    Ok(())
}

fn main(rt: HostRuntime) -> io::Result<()> {
    let mut text = room();
    let length = read_full(&mut rt.reader(), &mut text)?;
    warn_if_full(&rt, length)?;
    report::report(&rt, tallies::replay(&text[..length]))
}
