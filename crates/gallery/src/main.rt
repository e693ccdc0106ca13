//! Prints what there is to tell of every wiring whose file is named, a heading before each.
#![tactic(auto)]

use std::{env, fs};
use survey::reporting::report;

fn show(rt: &HostRuntime, path: &str) -> anyhow::Result<()> {
    let text = fs::read(rt, path)?;
    println!(rt; "== {path}")?;
    match report(rt.alloc(), text.as_slice()) {
        Ok(survey) => print!(rt; "{survey}")?,
        Err(error) => println!(rt; "{error}")?,
    }
    Ok(())
}

fn main(rt: HostRuntime) -> anyhow::Result<()> {
    for path in env::args(&rt)?.skip(1) {
        show(&rt, path.as_str())?;
    }
    Ok(())
}
