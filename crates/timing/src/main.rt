//! Reads the text of a wiring from standard input and prints its survey.
#![tactic(auto)]

use anyhow::bail;
use std::io::Read;
use survey::reporting::report;

fn main(rt: HostRuntime) -> anyhow::Result<()> {
    let mut text: Vec<u8> = Vec::new(rt.alloc());
    let _read = rt.stdin().read_to_end(&mut text)?;
    match report(rt.alloc(), text.as_slice()) {
        Ok(survey) => print!(rt; "{survey}")?,
        Err(error) => {
            eprintln!(rt; "{error}")?;
            bail!("no survey");
        }
    }
    Ok(())
}
