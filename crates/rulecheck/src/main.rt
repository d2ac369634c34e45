//! Carries out an input of commands on a new session, and prints a line for each. The input is bytes, or with the
//! argument `text` the text of such bytes. What the lines are is promised by `console`, which bytes a text says by
//! `hex_text`; this program reads standard input and prints.
#![tactic(auto)]

use console::lines::lines;
use std::env;
use std::io::Read;
use std::process::ExitCode;

const USAGE: &str = "usage: rulecheck [text] < INPUT
Carries out the commands of the input on a new session, and prints a line for each.
With `text`, the input is text: each byte has two hexadecimal digits; blanks and ends
of lines part them, and # begins a comment.";

// One byte more than an input may have.
const ENOUGH: u64 = 65_537;

fn bytes(rt: &HostRuntime) -> anyhow::Result<Vec<u8>> {
    let mut bytes = Vec::new(rt.alloc());
    rt.stdin().take(ENOUGH).read_to_end(&mut bytes)?;
    Ok(bytes)
}

fn text(rt: &HostRuntime) -> anyhow::Result<Vec<u8>> {
    let mut text = Vec::new(rt.alloc());
    rt.stdin().read_to_end(&mut text)?;
    Ok(hex_text::reader::read(rt.alloc(), &text)?)
}

// All lines are made before the first is printed.
fn answer(rt: &HostRuntime, input: &[u8]) -> anyhow::Result<ExitCode> {
    for line in lines(rt.alloc(), input)? {
        println!(rt; "{line}")?;
    }
    Ok(ExitCode::SUCCESS)
}

fn main(rt: HostRuntime) -> anyhow::Result<ExitCode> {
    let mut arguments = env::args(&rt)?.skip(1);
    let argument = arguments.next();
    let more = arguments.next().is_some();
    match argument.as_deref() {
        None => answer(&rt, &bytes(&rt)?),
        Some("text") if !more => answer(&rt, &text(&rt)?),
        Some("--help") if !more => {
            println!(rt; "{USAGE}")?;
            Ok(ExitCode::SUCCESS)
        }
        Some(_) => {
            eprintln!(rt; "{USAGE}")?;
            Ok(ExitCode::FAILURE)
        }
    }
}
