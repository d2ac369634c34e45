//! Asks sessions about a few offers for a bowling centre, and prints each verdict. With the argument `time` it measures
//! how long a question takes, on these and on random offers; with `list` it prints all these offers, each on a line of
//! its own, by the bytes of its rules.
#![tactic(auto)]

mod counting;
mod offers;
mod sets;
mod timing;

use modal::faults::Fault;
use offers::Offer;
use search::Searcher;
use session::session::Session;
use session::verdict::Verdict;
use sets::sets;
use sheet::row::SheetRow;
use std::env;
use std::process::ExitCode;
use timing::time;

const USAGE: &str = "usage: offers [time | list]
Asks sessions about a few offers and prints each verdict. With `time`, measures how
long this takes, on these and on random offers; with `list`, prints all the offers
that are measured, each on a line of its own: the set it belongs to, a tabulator,
the verdict, and the bytes of each rule.";

// As many rows as the largest tree has here, and some.
const ROOM: usize = 2048;

fn print(rt: &HostRuntime, offer: Offer) -> anyhow::Result<()> {
    let name = offer.name();
    let rules = offer.rules(rt.alloc())?;
    let mut session = Session::new(Searcher::new());
    rules.add_to(&mut session)?;
    let mut sheet = vec![in rt.alloc(); SheetRow::BLANK; ROOM]?;
    match session.question(rules.all(), &mut sheet) {
        Ok(Verdict::Open(count)) => {
            let drawn = sheet.iter().filter(|row| !row.is_blank()).count();
            println!(rt; "{name}: open, {count} worlds, {drawn} drawn")?;
        }
        Ok(Verdict::Closed(core)) => println!(rt; "{name}: closed, core {core:#b}")?,
        Err(fault) => {
            let (number, detail) = (fault.number(), fault.detail());
            println!(rt; "{name}: refused, {number}, detail {detail}: {fault}")?;
        }
    }
    Ok(())
}

fn print_all(rt: &HostRuntime) -> anyhow::Result<()> {
    for offer in Offer::ALL {
        print(rt, offer)?;
    }
    Ok(())
}

fn list(rt: &HostRuntime) -> anyhow::Result<()> {
    for set in sets(rt.alloc())? {
        for offer in &set.offers {
            println!(rt; "{}\t{}{offer}", set.name, offer.verdict()?)?;
        }
    }
    Ok(())
}

fn main(rt: HostRuntime) -> anyhow::Result<ExitCode> {
    let mut arguments = env::args(&rt)?.skip(1);
    let argument = arguments.next();
    let more = arguments.next().is_some();
    match argument.as_deref() {
        None => print_all(&rt)?,
        Some("time") if !more => time(&rt)?,
        Some("list") if !more => list(&rt)?,
        Some("--help") => println!(rt; "{USAGE}")?,
        Some(_) => {
            eprintln!(rt; "{USAGE}")?;
            return Ok(ExitCode::FAILURE);
        }
    }
    Ok(ExitCode::SUCCESS)
}
