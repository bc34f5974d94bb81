// The lines that say the counts.
// A line that would say none is left out.
use std::io;
use tallies::calls::Call;
use tallies::tally::Tally;

fn print_line(rt: &impl Print, what: &str, number: Option<usize>) -> io::Result<()> {
    match number {
        Some(number) => println!(rt; "{what}: line {number}"),
        None => Ok(()),
    }
}

pub fn report(rt: &impl Print, tally: Tally) -> io::Result<()> {
    for (call, count) in Call::ALL.iter().zip(tally.counts.iter()) {
        println!(rt; "{}: {count}", call.name())?;
    }
    print_line(rt, "first wrong case", tally.first_wrong)?;
    if tally.malformed > 0 {
        println!(rt; "malformed lines: {}", tally.malformed)?;
    }
    print_line(rt, "first malformed", tally.first_malformed)
}
