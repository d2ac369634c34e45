// The theorems on the clausal form, each on the contract of a function, so that the check asks for its proof.
ghost use Rattle.clausal.specs.Laws.{PlacesCounted, FormKept, FewDefinitions, DefinitionsForced, ModalClausesRead, CompleteMeets};

/// The places that a rule's names are counted by are exactly the reached ones, each once.
pub fn places_counted()
    ensures { PlacesCounted }
{}

/// A new session holds the clausal form of no rules, and one that takes in a rule still holds that of its rules.
pub fn form_kept()
    ensures { FormKept }
{}

/// A level never needs more than 97 definitions: one, and at most two for each of 48 names.
pub fn few_definitions()
    ensures { FewDefinitions }
{}

/// With each name read as its row with its sign, every definition is true at every world of every Kripke model.
pub fn definitions_forced()
    ensures { DefinitionsForced }
{}

/// With names read so, where the name of a box clause is true its literal is true at every successor, and where that of a
/// diamond clause is true, at some.
pub fn modal_clauses_read()
    ensures { ModalClausesRead }
{}

/// A complete tree is a Kripke model. Its root meets the formula of every place whose literal its valuation obeys, and
/// every rule whose handle is in.
pub fn complete_meets()
    ensures { CompleteMeets }
{}
