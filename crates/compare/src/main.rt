//! Reads a series of wirings from standard input, parted by one empty line, and prints the best loads
//! and the list of each.
#![tactic(auto)]

use crate::choosing::choose;
use std::io::Read;

mod choosing;
mod text;

fn main(rt: HostRuntime) -> anyhow::Result<()> {
    let mut series = String::new(rt.alloc());
    let _read = rt.stdin().read_to_string(&mut series)?;
    for part in series.split("\n\n") {
        match choose(rt.alloc(), part.as_bytes()) {
            Ok(choice) => print!(rt; "{choice}")?,
            Err(error) => println!(rt; "{error}")?,
        }
    }
    Ok(())
}
