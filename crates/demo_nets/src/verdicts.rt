//! Verdicts: two nets, a relation of their places, each obligation with its answer, and the verdict.
use crate::cases::{Answered, Case, Outcome, Owed, Refused};
use crate::ending::ending;
use crate::named::{NamedOutcome, NamedOwed, NamedRelation};
use places::Relation;
use std::io;
use verdict::{AnsweredObligation, list_answers, verdict};

/// Prints the two nets and the relation.
fn print_case(rt: &HostRuntime, case: &Case) -> io::Result<()> {
    let title = case.title;
    let left = case.left.words;
    let right = case.right.words;
    let relation = NamedRelation { case };
    println!(rt; "{title}\n  left net: {left}\n  right net: {right}\n  relation:{relation}")
}

/// Prints an obligation and its answer.
fn print_answered(rt: &HostRuntime, case: &Case, entry: &Answered) -> io::Result<()> {
    let other = case.other(entry.owed.side);
    let answer = entry.answer.map_or("nothing", |u| other.transition(u));
    let owed = NamedOwed {
        case,
        owed: entry.owed,
    };
    println!(rt; "  owed: {owed}, answered by {answer}")
}

/// Lists the obligations, prints them, and says whether they are those worked out by hand.
fn list_case(rt: &HostRuntime, case: &Case) -> io::Result<bool> {
    let mut out = [AnsweredObligation::blank(); 16];
    let Ok(count) = list_answers(
        &case.left.arc_list(),
        &case.right.arc_list(),
        &Relation::from(case.relation),
        &mut out,
    ) else {
        return Ok(false);
    };
    for entry in out.iter().take(count) {
        print_answered(rt, case, &Answered::from(entry))?;
    }
    let mut entries = out.iter().zip(case.owed);
    Ok(count == case.owed.len() && entries.all(|(entry, owed)| Answered::from(entry) == *owed))
}

/// Whether the verdict is the one worked out by hand.
fn is_expected(case: &Case, outcome: &Outcome) -> bool {
    *outcome == case.expected
}

/// Prints a verdict behind a word that says where it comes from.
fn print_outcome(rt: &HostRuntime, what: &str, case: &Case, outcome: Outcome) -> io::Result<()> {
    let outcome = NamedOutcome { case, outcome };
    println!(rt; "  {what}: {outcome}")
}

/// Prints a verdict that was given, and says whether it is the one worked out by hand.
fn print_given(rt: &HostRuntime, case: &Case, outcome: Outcome) -> io::Result<bool> {
    print_outcome(rt, "verdict", case, outcome)?;
    Ok(is_expected(case, &outcome))
}

/// Gives and prints the verdict, and says whether it is the one worked out by hand.
fn judge_case(rt: &HostRuntime, case: &Case) -> io::Result<bool> {
    let left = case.left.arc_list();
    let right = case.right.arc_list();
    match verdict(&left, &right, &Relation::from(case.relation)) {
        Ok(count) => print_given(rt, case, Ok(count)),
        Err(refusal) => {
            let obligation = refusal.obligation();
            let refused = Refused {
                number: refusal.number(),
                owed: Owed::from(&obligation),
            };
            print_given(rt, case, Err(refused))
        }
    }
}

/// Runs one case, prints it, and says whether it came out as worked out by hand.
pub fn run(rt: &HostRuntime, case: &Case) -> io::Result<bool> {
    print_case(rt, case)?;
    let listed = list_case(rt, case)?;
    let judged = judge_case(rt, case)?;
    print_outcome(rt, "by hand", case, case.expected)?;
    let agrees = listed && judged;
    let ending = ending(agrees);
    println!(rt; "  {ending}\n")?;
    Ok(agrees)
}
