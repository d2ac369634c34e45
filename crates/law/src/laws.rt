// The theorems on lists of calls and on the answers to a question, each on the contract of a function, so that the
// check asks for its proof.
ghost use Rattle.law.specs.Laws.{SessionsSound, RepliesAgree, OpenFromTree, ClosedFromCore, FullFromPart};

/// Every session that calls can leave holds exactly the clausal form of its rules, and learnt clauses that they force.
pub fn sessions_sound()
    ensures { SessionsSound }
{}

/// The same calls over two oracles never leave a question open over one and closed over the other.
pub fn replies_agree()
    ensures { RepliesAgree }
{}

/// A complete tree under the handles of the rules asked meets them all at its root.
pub fn open_from_tree()
    ensures { OpenFromTree }
{}

/// Rules whose handles no valuation obeys under the entries of level 0 are met at no world of any Kripke model.
pub fn closed_from_core()
    ensures { ClosedFromCore }
{}

/// A level refused as full holds 128 clauses, each needed, and a world is still allowed a part that cannot exist.
pub fn full_from_part()
    ensures { FullFromPart }
{}
