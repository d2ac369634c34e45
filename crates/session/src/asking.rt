// What a question assumes, and the rules of a core.
ghost use Rattle.std.specs.Prelude.{◌≡◌, ◌<◌, true, MatchResult};
ghost use Rattle.atoms.specs.Bits.{bit};
ghost use Rattle.atoms.specs.Sets.{has};
ghost use Rattle.session.specs.Assumed.{handle_in, AskedHeld, Assumes, NamesUnknown, KeepsIn};

use crate::faults::QuestionFault;
use atoms::assumptions::Assumptions;
use atoms::clauses::Literal;
use naming::table::{RULES, Table};

fn is_asked(rules: u16, number: u8) -> bool
    requires { number < 16 }
    ensures { result ≡ bit rules number }
{
    rules >> number & 1 == 1
}

// The handles of the rules asked, all in.
pub(crate) fn assume(table: &Table, rules: u16) -> Result<Assumptions, QuestionFault>
    ensures { MatchResult result (λ under. Assumes table.now rules 16 under) (λ fault. NamesUnknown table.now rules fault) }
{
    let mut under = Assumptions::NONE;
    for number in 0..RULES as u8 {
        if is_asked(rules, number) {
            let handle = table
                .handle(number)
                .ok_or(QuestionFault::UnknownRule(number))?;
            under = under.with(Literal::positive(handle));
        }
    }
    Ok(under)
}

// Whether the question asks the rule with the number, and its handle is in the core.
fn keeps(table: &Table, rules: u16, core: Assumptions, number: u8) -> bool
    requires { number < 16 }
    ensures asked { result ≡ true → bit rules number ≡ true }
    ensures held { AskedHeld table.now rules number → result ≡ has core.within (handle_in table.now number) }
{
    let Some(handle) = table.handle(number) else {
        return false;
    };
    is_asked(rules, number) && core.within.member(handle)
}

// The rules asked whose handles are in the core.
pub(crate) fn kept_in(table: &Table, rules: u16, core: Assumptions) -> u16
    ensures { KeepsIn table.now rules core 16 result }
{
    let mut kept = 0;
    for number in 0..RULES as u8 {
        if keeps(table, rules, core, number) {
            kept |= 1 << number;
        }
    }
    kept
}
