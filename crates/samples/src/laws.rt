// The theorems on the worked examples, each on the contract of a function, so that the check asks for its proof.
ghost use Rattle.samples.specs.Laws.{FittingRulesHeld, MetHasTree, WorldsCounted, AllHold};
ghost use Rattle.samples.specs.Samples.{samples};

/// At most 16 rules, with at most 48 names at each level, are held by some session.
pub fn fitting_rules_held()
    ensures { FittingRulesHeld }
{}

/// Whatever rules a world of a Kripke model meets together have a complete tree under their handles.
pub fn met_has_tree()
    ensures { MetHasTree }
{}

/// A rule's complete trees have a world for each of its diamonds, and the root, if these all hold at the root and none is deeper.
pub fn worlds_counted()
    ensures { WorldsCounted }
{}

/// Every case of the table holds.
pub fn samples_hold()
    ensures { AllHold samples }
{}
