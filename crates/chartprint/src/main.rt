// Prints the chart on standard input as a table, or why it is none.
#![tactic(auto)]

use reports::tables::{ENOUGH, chart_report};
use std::io::Read;

fn run(rt: &HostRuntime) -> anyhow::Result<()> {
    let alloc = rt.alloc();
    let mut file = Vec::new(alloc);
    let mut input = rt.stdin().take(ENOUGH);
    input.read_to_end(&mut file)?;
    let text = chart_report(alloc, file.as_slice())?;
    rt.print(text.as_str())?;
    Ok(())
}

fn main(rt: HostRuntime) -> anyhow::Result<()> {
    run(&rt)
}
