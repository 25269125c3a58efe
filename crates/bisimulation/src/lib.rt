//! Place bisimulation of two nets with inhibitor arcs: definitions and theorems.

#![tactic(auto)]

ghost use Rattle.bisimulation.specs.Theorems.{AcceptedExactly, AnswerGiven, AnswersDecide, ListedInOrder, ListedOnce, ListsTested, RefusedBreaks, UnionFails};

/// Every obligation has an answer exactly when the relation is a place bisimulation: a theorem.
pub fn answers_decide()
    ensures { AnswersDecide }
{}

/// The test on lists tells whether the closure relates their bags: a theorem.
pub fn lists_tested()
    ensures { ListsTested }
{}

/// The lists that are gone through are all ascending lists, each once, in dictionary order: a theorem.
pub fn listed_once()
    ensures once { ListedOnce }
    ensures ordered { ListedInOrder }
{}

/// The answer that is computed is the lowest, or none where there is none: a theorem.
pub fn answer_given()
    ensures { AnswerGiven }
{}

/// The verdict accepts a relation exactly when it is a place bisimulation: a theorem.
pub fn accepted_exactly()
    ensures { AcceptedExactly }
{}

/// The obligation with which the verdict refuses a relation breaks it: a theorem.
pub fn refused_breaks()
    ensures { RefusedBreaks }
{}

/// The union of two relations that are accepted need not be accepted: a theorem.
pub fn union_fails()
    ensures { UnionFails }
{}
