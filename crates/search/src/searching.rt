ghost use Rattle.std.specs.Prelude.{◌≡◌, ◌<◌, false};
ghost use Rattle.atoms.specs.Assuming.{Joined, settled};
ghost use Rattle.search.specs.Searches.{Searched, StartTrail, undecided_in};

use crate::judging::examine;
use crate::status::Status;
use atoms::assumptions::Assumptions;
use atoms::clauses::{Entry, Literal, all_hold, named};
use atoms::sets::AtomSet;

// A trial of one literal more: at its end the trail is as it was before.
struct Trial<'a> {
    trail: &'a mut Assumptions,
    before: Assumptions,
}

impl<'a> Trial<'a> {
    fn begin(trail: &'a mut Assumptions, literal: Literal) -> Trial<'a>
        requires { (literal.atom < 64) × (settled trail.old literal.atom ≡ false) }
        ensures joined { Joined trail.old literal result.trail.now }
        ensures less { undecided_in result.trail.now < undecided_in trail.old }
        ensures before { result.before ≡ trail.old }
        ensures lent { result.trail.ghost_name ≡ trail.entry.ghost_name }
    {
        let before = *trail;
        *trail = before.with(literal);
        Trial { trail, before }
    }
}

impl Drop for Trial<'_> {
    fn drop(self)
        ensures { self.exit.0.now ≡ self.entry.before }
    {
        *self.trail = self.before;
        let Trial {
            trail: _,
            before: _,
        } = self;
    }
}

// The answer of the search from the trail, which is left as it was.
pub(crate) fn search(entries: &[Entry], trail: &mut Assumptions) -> Option<AtomSet>
    ensures same { trail.new ≡ trail.old }
    ensures order { Searched entries.now trail.old result }
{
    if trail.clashes() {
        return None;
    }
    match examine(entries, *trail) {
        Status::Conflict => None,
        Status::Forced(literal) => {
            let trial = Trial::begin(trail, literal);
            search(entries, trial.trail)
        }
        Status::Open => {
            let Some(atom) = trail.undecided().lowest() else {
                return Some(trail.within);
            };
            // What the trials would come to: under this valuation no entry is false, so none becomes false as one undecided
            // atom after another is tried out, and none forces an atom in.
            if all_hold(entries, trail.within) {
                return Some(trail.within);
            }
            // A block and no `or_else`: the first trial's guard lets go of the trail before the second begins.
            {
                let trial = Trial::begin(trail, Literal::negation(atom));
                if let Some(valuation) = search(entries, trial.trail) {
                    return Some(valuation);
                }
            }
            let trial = Trial::begin(trail, Literal::positive(atom));
            search(entries, trial.trail)
        }
    }
}

// The trail to begin with: the assumptions, and out the atoms that no entry names and that need not be in. Otherwise
// each of these below a named atom would double the work of a refutation.
pub(crate) fn start(entries: &[Entry], under: Assumptions) -> Assumptions
    ensures { StartTrail entries.now under result }
{
    let spare = named(entries).union(under.within).complement();
    Assumptions {
        within: under.within,
        without: under.without.union(spare),
    }
}
