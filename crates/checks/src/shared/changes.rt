//! What is certified of the order, the books, the accounts and the calls that a house leaves behind, as they are and with one
//! change each.

ghost use Rattle.std.specs.Prelude.{All, ◌≡◌, IfOk, map};
ghost use Rattle.shared_house.specs.Points.{AreAdmitted};

use crate::check_fault::CheckFault;
use command_line::Fault;
use exact_money::Amount;
use ocpi_types::Config;
use period_order::OrderEntry;
use plain_house::Answer;
use shared_house::{Call, CertifyFault, Gathered, certify};
use std::alloc::{AllocError, Global};
use std::io;
use std::thread::Threads;

fn told(written: io::Result<()>) -> Result<(), CheckFault<'static>> {
    match written {
        Ok(()) => Ok(()),
        Err(_) => Err(CheckFault::from(Fault::CannotWrite)),
    }
}

// What is certified of the values with this order.
fn tell_with_order<R: Threads + Sync>(
    rt: &HostRuntime,
    threads: &R,
    config: &Config,
    gathered: &Gathered,
    order: &[OrderEntry],
    change: &str,
    number: usize,
) -> Result<(), CheckFault<'static>>
    requires { All (λ calls. AreAdmitted config.now calls.items) gathered.now.calls.items }
{
    let certified = certify(
        threads,
        rt.alloc(),
        config,
        order,
        gathered.books.as_slice(),
        gathered.accounts.as_slice(),
        gathered.calls.as_slice(),
    );
    match certified {
        Ok(events) => told(println!(rt; "{change} {number}: {} events", events.len())),
        Err(CertifyFault::Torn { entry }) => told(println!(rt;
            "{change} {number}: torn at {entry}"
        )),
        Err(CertifyFault::NoMemory) => Err(CheckFault::from(Fault::NoMemory)),
    }
}

// The order without the entry of this number.
fn without(
    alloc: Global,
    order: &[OrderEntry],
    number: usize,
) -> Result<Vec<OrderEntry>, AllocError> {
    let mut others = Vec::new(alloc);
    for (place, entry) in order.iter().enumerate() {
        if place != number {
            others.push(*entry)?;
        }
    }
    Ok(others)
}

// The order with the entry of this number before the one that it was behind.
fn exchanged(
    alloc: Global,
    order: &[OrderEntry],
    number: usize,
) -> Result<Vec<OrderEntry>, AllocError> {
    let mut entries = order.to_vec(alloc)?;
    if 0 < number && number < entries.len() {
        entries.swap(number - 1, number);
    }
    Ok(entries)
}

fn tell_without<R: Threads + Sync>(
    rt: &HostRuntime,
    threads: &R,
    config: &Config,
    gathered: &Gathered,
) -> Result<(), CheckFault<'static>>
    requires { All (λ calls. AreAdmitted config.now calls.items) gathered.now.calls.items }
{
    let order = gathered.entries.as_slice();
    for number in 0..order.len() {
        let others = without(rt.alloc(), order, number)?;
        let others = others.as_slice();
        tell_with_order(rt, threads, config, gathered, others, "without", number)?;
    }
    Ok(())
}

fn tell_exchanged<R: Threads + Sync>(
    rt: &HostRuntime,
    threads: &R,
    config: &Config,
    gathered: &Gathered,
) -> Result<(), CheckFault<'static>>
    requires { All (λ calls. AreAdmitted config.now calls.items) gathered.now.calls.items }
{
    let order = gathered.entries.as_slice();
    for number in 1..order.len() {
        let entries = exchanged(rt.alloc(), order, number)?;
        let entries = entries.as_slice();
        tell_with_order(rt, threads, config, gathered, entries, "exchanged", number)?;
    }
    Ok(())
}

fn one_more(amount: Amount) -> Amount {
    Amount::from_ten_thousandths(amount.ten_thousandths().wrapping_add(1))
}

fn raise(answer: &mut Answer) {
    if let Answer::Accepted { amount, .. } = answer {
        *amount = one_more(*amount);
    }
}

// The call, with an amount of one ten-thousandth more where it was accepted.
fn with_more(call: Call) -> Call
    ensures { result.command ≡ call.command }
{
    let Call { command, mut reply } = call;
    if let Ok(replied) = &mut reply {
        raise(&mut replied.answer);
    }
    Call { command, reply }
}

fn all_with_more(alloc: Global, config: &Config, calls: Vec<Call>) -> Result<Vec<Call>, AllocError>
    requires { AreAdmitted config.now calls.items }
    ensures { IfOk result (λ changed. AreAdmitted config.now changed.items) }
{
    let _ = config;
    let mut changed = Vec::new(alloc);
    for call in calls {
        changed.push(with_more(call))?;
    }
    Ok(changed)
}

// Tells what is certified where each amount that was accepted is one ten-thousandth more.
fn tell_amounts<R: Threads + Sync>(
    rt: &HostRuntime,
    threads: &R,
    config: &Config,
    gathered: Gathered,
) -> Result<(), CheckFault<'static>>
    requires { All (λ calls. AreAdmitted config.now calls.items) gathered.calls.items }
{
    let Gathered {
        entries,
        books,
        accounts,
        calls,
    } = gathered;
    let mut passes = Vec::new(rt.alloc());
    for pass in calls {
        passes.push(all_with_more(rt.alloc(), config, pass)?)?;
    }
    let changed = Gathered {
        entries: Vec::new(rt.alloc()),
        books,
        accounts,
        calls: passes,
    };
    let entries = entries.as_slice();
    tell_with_order(rt, threads, config, &changed, entries, "other amounts", 0)
}

// Tells what is certified of the values as they are, and with each change.
fn tell_all<R: Threads + Sync>(
    rt: &HostRuntime,
    threads: &R,
    config: &Config,
    gathered: Gathered,
) -> Result<(), CheckFault<'static>>
    requires { All (λ calls. AreAdmitted config.now calls.items) gathered.calls.items }
{
    let order = gathered.entries.as_slice();
    tell_with_order(rt, threads, config, &gathered, order, "as they are", 0)?;
    tell_without(rt, threads, config, &gathered)?;
    tell_exchanged(rt, threads, config, &gathered)?;
    tell_amounts(rt, threads, config, gathered)
}

/// Tells what is certified of what was gathered of a house under the configuration, as it is and with each change.
pub fn tell<R: Threads + Sync>(
    rt: &HostRuntime,
    threads: &R,
    config: &Config,
    gathered: Result<Gathered, AllocError>,
) -> Result<(), CheckFault<'static>>
    requires { IfOk gathered (λ gathered. All (λ calls. AreAdmitted config.now calls.items) gathered.calls.items) }
{
    match gathered {
        Ok(gathered) => tell_all(rt, threads, config, gathered),
        Err(AllocError) => Err(CheckFault::from(Fault::NoMemory)),
    }
}
