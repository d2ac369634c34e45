// Handing definitions to an oracle.
ghost use Rattle.naming.specs.Tables.{definitions_at, StartEntries};
ghost use Rattle.oracle.specs.Oracles.{Clears};
ghost use Rattle.session.specs.Defined.{AllDefined, Defined};

use atoms::clauses::{Clause, Entry, Literal, Mark};
use atoms::levels::Level;
use atoms::sets::TRUE_ATOM;
use naming::definitions::Definitions;
use oracle::Oracle;

// Appends definitions of these clauses to a level, as far as it has room for them.
fn define<O: Oracle>(oracle: &mut O, level: Level, clauses: &[Clause])
    ensures { Defined (O.Oracle.entries oracle.old) (O.Oracle.entries oracle.new) level clauses.now }
{
    for clause in clauses {
        // never refused on a session that its calls have left, where no level wants more definitions than it may hold
        let _ = oracle.take(
            level,
            Entry {
                clause: *clause,
                mark: Mark::Definition,
            },
        );
    }
}

// Gives each level of an oracle without entries its first clause, "atom 15".
pub(crate) fn start<O: Oracle>(oracle: &mut O)
    requires { Clears (O.Oracle.entries oracle.old) }
    ensures { StartEntries (O.Oracle.entries oracle.new) }
{
    let first = Clause::NONE.with(Literal::positive(TRUE_ATOM));
    for level in &Level::ALL {
        define(oracle, *level, &[first]);
    }
}

// Appends the definitions of a rule to each level, as far as it has room for them.
pub(crate) fn define_rule<O: Oracle>(oracle: &mut O, definitions: &Definitions)
    ensures { AllDefined (O.Oracle.entries oracle.old) (O.Oracle.entries oracle.new) (definitions_at definitions.now) }
{
    for level in &Level::ALL {
        define(oracle, *level, definitions.at(*level));
    }
}
