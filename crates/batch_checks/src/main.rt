//! Crashes of a log of batches over a disk in memory, and changed files: it prints how many recoveries gave what was expected.
//! If standard input has lines, each of them is a file in hex digits, and it prints what each file is found to be.
#![tactic(auto)]

mod failure;
mod files;
mod restart;
mod telling;
mod trials;

use std::alloc::Global;

fn try_all(rt: &HostRuntime, alloc: Global) -> anyhow::Result<()> {
    println!(rt; "appends stopped at each call: {}", trials::appends(alloc)?)?;
    println!(rt;
        "recoveries stopped at each call: {}",
        trials::recoveries(alloc)?
    )?;
    println!(rt; "torn ends: {}", trials::torn_ends(alloc)?)?;
    println!(rt; "bytes of the last mark: {}", trials::marks(alloc)?)?;
    let (refused, same) = trials::bits(alloc)?;
    println!(rt; "changed bits: {refused} refused, {same} with the same lines")?;
    let (refused, unbegun) = trials::cuts(alloc)?;
    println!(rt; "cuts: {refused} refused, {unbegun} with no line")?;
    println!(rt; "batches of many sizes: {}", trials::sizes(alloc)?)?;
    Ok(())
}

fn main(rt: HostRuntime) -> anyhow::Result<()> {
    let alloc = rt.alloc();
    let mut has_lines = false;
    for line in rt.lines(alloc) {
        has_lines = true;
        let text = telling::found_text(alloc, line?.as_str())?;
        println!(rt; "{text}")?;
    }
    if !has_lines {
        try_all(&rt, alloc)?;
    }
    Ok(())
}
