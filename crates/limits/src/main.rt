//! Asks for what is just within a limit and what is just beyond it: rows of a rule, rules of a session, names of a level,
//! learnt clauses of a level. Prints each reply beside the one that is due, and how many differ.
#![tactic(auto)]

mod cases;
mod replies;

use cases::Case;
use std::process::ExitCode;

fn main(rt: HostRuntime) -> anyhow::Result<ExitCode> {
    let mut differences = 0_u32;
    for case in Case::ALL {
        let (reply, due) = (case.reply(rt.alloc())?, case.due());
        println!(rt; "{}: {reply}", case.name())?;
        if reply != due {
            println!(rt; "  due: {due}")?;
            differences = differences.saturating_add(1);
        }
    }
    println!(rt; "differences: {differences}")?;
    Ok(if differences == 0 {
        ExitCode::SUCCESS
    } else {
        ExitCode::FAILURE
    })
}
