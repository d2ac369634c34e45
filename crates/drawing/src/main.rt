//! Reads a page from standard input, a rule and the drawing of a tree, and says whether the root of the tree meets the
//! rule, with both in words.
#![tactic(auto)]

use page::check::{Checked, check};
use page::drawing::Drawing;
use sheet::tree::shown;
use std::env;
use std::io::Read;
use std::process::ExitCode;

const USAGE: &str = "usage: drawing < PAGE
Says whether the root of a drawn tree meets a rule, both on the page. The first line
has the bytes of the rule in hexadecimal; each further line is a world: the number of
its parent, its level, and its letters. # begins a comment. A page that is refused
prints why, and the status is 1.";

fn input(rt: &HostRuntime) -> anyhow::Result<Vec<u8>> {
    let mut text = Vec::new(rt.alloc());
    let _ = rt.stdin().read_to_end(&mut text)?;
    Ok(text)
}

fn print(rt: &HostRuntime, checked: &Checked) -> anyhow::Result<()> {
    println!(rt; "rule:")?;
    for (i, row) in checked.rule.rows().iter().enumerate() {
        println!(rt; "  row {i}: {row}")?;
    }
    println!(rt; "drawing:")?;
    let drawing = Drawing(shown(&checked.sheet)?);
    print!(rt; "{drawing}")?;
    let meets = if checked.met {
        "meets"
    } else {
        "does not meet"
    };
    println!(rt; "verdict: world 0 {meets} the rule")?;
    Ok(())
}

fn run(rt: &HostRuntime) -> anyhow::Result<ExitCode> {
    let text = input(rt)?;
    match check(rt.alloc(), &text) {
        Ok(checked) => {
            print(rt, &checked)?;
            Ok(ExitCode::SUCCESS)
        }
        Err(fault) => {
            println!(rt; "refused: {fault}")?;
            Ok(ExitCode::FAILURE)
        }
    }
}

fn main(rt: HostRuntime) -> anyhow::Result<ExitCode> {
    let argument = env::args(&rt)?.nth(1);
    match argument.as_deref() {
        None => run(&rt),
        Some("--help") => {
            println!(rt; "{USAGE}")?;
            Ok(ExitCode::SUCCESS)
        }
        Some(_) => {
            eprintln!(rt; "{USAGE}")?;
            Ok(ExitCode::FAILURE)
        }
    }
}
