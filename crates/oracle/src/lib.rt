//! What every oracle means, and the store of entries that oracles share.
//!
//! An oracle settles the true-or-false part of a world: which atoms are in. Its ghost member `entries` is, for each
//! level, a list of entries, and each call is described by what it does to these lists and by what its answer says of
//! them (`specs/Oracles.antt`). Code that is generic over the trait is proved once for every oracle: `satisfiable`
//! shows that the meaning settles each verdict, and `agree` that two oracles with the same entries cannot differ.
//!
//! The store keeps each level's entries in an array with room for 97 definitions and 128 learnt entries, so `take`
//! refuses exactly at these limits and never for want of memory. The crate stands on `atoms`, for what an oracle is
//! asked about, and on `fixed_list`, for the array.
//!
//! - `Oracle`: the trait, with `take`, `solve`, `forget` and `clear`.
//! - `satisfiable`: whether a valuation exists, asked of any oracle.
//! - `agree`: whether two oracles give the same verdict.
//! - `answers`: `Solved`, what `solve` answers, and `LevelFull`, why `take` refuses.
//! - `store::Store`: the entries of every level; `take`, `forget` and `clear` as the trait has them, and `entries` of one level.
//! - `entry_list::DEFINITIONS`, `LEARNT`: how many entries of each mark a level may hold.
#![tactic(auto)]

ghost use Rattle.std.specs.Prelude.{◌≡◌, ℕ, ◌↔◌, List, IsTrue};
ghost use Rattle.atoms.specs.declared.clauses.Entry.{Entry};
ghost use Rattle.oracle.specs.Oracles.{Taken, Solves, Forgets, Clears, Satisfiable, SameVerdict};

use atoms::assumptions::Assumptions;
use atoms::clauses::Entry;
use atoms::levels::Level;

pub mod answers;
pub mod entry_list;
pub mod store;

use answers::{LevelFull, Solved};

/// An oracle holds a list of entries for each level.
// Each oracle is made with an empty store, and forwards take, forget and clear to it: shared code for that needs a second
// trait for solving, with the order that each solve promises behind a ghost member. So each says of itself what its core
// is: not here, since an oracle may give a smaller core than all that was assumed.
pub trait Oracle {
    ghost entries: { Self → ℕ → List Entry };

    /// Appends the entry at the end of its level's list. It is refused, and all lists are left alone, exactly when the
    /// level already holds 97 definitions, or 128 learnt entries, of the entry's mark.
    fn take(&mut self, level: Level, entry: Entry) -> Result<(), LevelFull>
        ensures { Taken (entries self.old) (entries self.new) level entry result };

    /// A valuation that obeys the assumptions and makes every entry of the level true, or, where there is none, a
    /// core: a part of the assumptions that already rules every valuation out. No entry is altered.
    fn solve(&mut self, level: Level, under: Assumptions) -> Solved
        ensures { Solves (entries self.old) (entries self.new) level under result };

    /// Drops the learnt entries of every level, and leaves the others in their order.
    fn forget(&mut self)
        ensures { Forgets (entries self.old) (entries self.new) };

    /// Empties every list.
    fn clear(&mut self)
        ensures { Clears (entries self.new) };
}

/// Whether a valuation obeys the assumptions and makes every entry of the level true.
pub fn satisfiable<O: Oracle>(oracle: &mut O, level: Level, under: Assumptions) -> bool
    ensures verdict { IsTrue result ↔ Satisfiable (O.Oracle.entries oracle.old level) under }
    ensures same { (k : ℕ) → O.Oracle.entries oracle.new k ≡ O.Oracle.entries oracle.old k }
{
    oracle.solve(level, under).is_ok()
}

/// Whether two oracles give the same verdict. They always do where they hold the same entries at the level. No entry of
/// either is altered.
pub fn agree<A: Oracle, B: Oracle>(a: &mut A, b: &mut B, level: Level, under: Assumptions) -> bool
    ensures verdict { IsTrue result ↔ SameVerdict (A.Oracle.entries a.old level) (B.Oracle.entries b.old level) under }
    ensures always { A.Oracle.entries a.old level ≡ B.Oracle.entries b.old level → IsTrue result }
    ensures same_first { (k : ℕ) → A.Oracle.entries a.new k ≡ A.Oracle.entries a.old k }
    ensures same_second { (k : ℕ) → B.Oracle.entries b.new k ≡ B.Oracle.entries b.old k }
{
    satisfiable(a, level, under) == satisfiable(b, level, under)
}
