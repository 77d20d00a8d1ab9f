// Replays the recorded answers of the Rust original, which come on standard input, and tries the refusals of every
// call. Prints how many calls were made and how many went wrong.
#![tactic(auto)]

mod buffers;
mod cases;
mod edges;
mod numbers;
mod reading;
mod refusals;
mod sheets;
mod tally;
mod trials;

use std::io;

// A read, a write or an allocation that fails ends the program with its error.
fn main(rt: HostRuntime) -> io::Result<()> {
    let replayed = cases::replay(rt.alloc(), &mut rt.reader())?;
    println!(rt; "{replayed}")?;
    let runs = refusals::all(rt.alloc())?;
    println!(rt;
        "{} runs at the edges of the refusals, {} wrong",
        runs.calls, runs.wrong
    )?;
    let others = edges::all(rt.alloc())?;
    println!(rt;
        "{} pictures, rows and sheets at the edges of the refusals, {} wrong",
        others.calls, others.wrong
    )
}
