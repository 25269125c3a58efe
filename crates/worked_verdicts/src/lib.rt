//! The worked examples of verdicts, on the definitions that the contracts of the library use.

#![tactic(auto)]

ghost use Rattle.worked_verdicts.specs.Worked.{WorkedVerdicts};

/// All worked examples of verdicts hold: a theorem.
#[tactic(auto, using(crate::proofs::Verdicts::worked_verdicts))]
pub fn worked_verdicts_hold()
    ensures { WorkedVerdicts }
{}
