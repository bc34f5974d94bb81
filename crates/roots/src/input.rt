// The published roots: a line has the bits of a number and of its root, each as 16 hexadecimal digits, with a space between.
// A line that starts with # is a comment. Any other line is malformed, and is named by its number.
ghost use Rattle.std.specs.Prelude.{◌≡◌};
ghost use Rattle.roots.specs.Input.{line_of};

use crate::tally::Tally;
use std::io;
use words::unchecked::hex_at;

// A line has the bits of a number and of its root, or is a comment.
#[derive(Clone, Copy)]
enum Line {
    Root(u64, u64),
    Comment,
}

// A line that is neither.
#[derive(Clone, Copy)]
struct Malformed;

// What a line says, without its end.
#[tactic(auto, unfolding(crate::specs::Input::line_of))]
fn line_of(line: &[u8]) -> Result<Line, Malformed>
    ensures { result ≡ line_of line.now }
{
    match line {
        [] => return Err(Malformed),
        [b'#', ..] => return Ok(Line::Comment),
        _ => {}
    }
    if line.len() != 33 || line[16] != b' ' {
        return Err(Malformed);
    }
    let x = hex_at(line, 0).ok_or(Malformed)?;
    let root = hex_at(line, 17).ok_or(Malformed)?;
    Ok(Line::Root(x, root))
}

// What the lines so far came to.
#[derive(Clone, Copy, Default)]
struct Published {
    tally: Tally,
    malformed: u64,
}

impl Published {
    // Adds one line, which has the given number.
    fn add_line(&mut self, rt: &impl Print, line: &[u8], number: usize) -> io::Result<()> {
        match line_of(line) {
            Ok(Line::Root(x, want)) => self.tally.compare(x, want),
            Ok(Line::Comment) => {}
            Err(Malformed) => {
                self.malformed = self.malformed.wrapping_add(1);
                println!(rt; "line {number}: malformed")?;
            }
        }
        Ok(())
    }
}

fn read_lines(rt: &impl Print, text: &[u8]) -> io::Result<Published> {
    let mut published = Published::default();
    for (i, line) in text.split_inclusive(|b| *b == b'\n').enumerate() {
        published.add_line(rt, line.strip_suffix(b"\n").unwrap_or(line), i + 1)?;
    }
    Ok(published)
}

// Compares each root of the text, and says what came out.
pub fn run_published(rt: &impl Print, text: &[u8]) -> io::Result<()> {
    let Published { tally, malformed } = read_lines(rt, text)?;
    if malformed > 0 {
        println!(rt; "malformed lines: {malformed}")?;
    }
    if tally.is_empty() {
        println!(rt; "published: no root in the input")
    } else {
        println!(rt; "published: {tally}")
    }
}
