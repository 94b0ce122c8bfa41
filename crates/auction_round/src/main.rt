// One auction from bids to dues, on a worked example, printed as a table.

#![tactic(auto)]

mod example;
mod table;

use anyhow::anyhow;
use auction::{award, seal_all};

fn run(rt: &(impl Print + AllocGlobal)) -> anyhow::Result<()> {
    let mut sheets = example::sheets().map_err(|_| anyhow!("no place for a bid"))?;
    seal_all(&mut sheets, example::PRODUCT, &example::LIMITS);
    let outcome = award(&sheets, example::CAPACITY);
    table::print(rt, &sheets, &outcome)
}

fn main(rt: HostRuntime) -> anyhow::Result<()> {
    run(&rt)
}
