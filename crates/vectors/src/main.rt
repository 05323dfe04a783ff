// Holds the operations on numbers to cases whose outcomes another compiler's arithmetic gave:
// `tools/vectors` writes them. Each case that comes out otherwise is printed, then how many there
// were, so that a case left out shows as well.
#![tactic(auto)]

mod case;
mod run;

use run::Vector;
use std::io;
use std::io::{BufRead, BufReader};

fn main(rt: HostRuntime) -> io::Result<()> {
    let mut count: u64 = 0;
    let mut wrong: u64 = 0;
    for line in BufReader::new(rt.alloc(), rt.stdin())?.lines(rt.alloc()) {
        let line = line?;
        count = count.saturating_add(1);
        let right = Vector::read(line.as_str()).is_some_and(|vector| vector.holds());
        if !right {
            wrong = wrong.saturating_add(1);
            println!(rt; "wrong: {line}")?;
        }
    }
    println!(rt; "{count} cases, {wrong} wrong")
}
