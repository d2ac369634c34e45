// What holds of any two outputs, on the contract of a function, so that the check asks for its proof.
ghost use Rattle.console.specs.Laws.{OraclesAgree};

/// The same input over any two oracles never gets replies that contradict each other at the same call.
pub fn oracles_agree()
    ensures { OraclesAgree }
{}
