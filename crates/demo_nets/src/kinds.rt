//! One net in three kinds, question by question: a chart, its plain copy, and an arc list. The net has the places s and
//! h. Its transition t, labelled x, takes one token from s and gives one to s, not while h holds a token; its
//! transition u, labelled y, takes two tokens from s and one from h, and gives three to h.
ghost use Rattle.std.specs.Prelude.{◌≡◌, ◌&&◌, ◌==◌, nat_eq};
ghost use Rattle.demo_nets.specs.Kinds.{answered};

use crate::arcs::{INHIBITOR, INPUT, OUTPUT};
use crate::cases::LABEL_X;
use crate::ending::ending;
use arc_lists::{Arc, ArcList};
use charts::Chart;
use names::Name;
use nets::{Net, Table};
use std::{fmt, io};

/// A question to a net.
#[derive(Clone, Copy, Debug, PartialEq, Eq)]
pub enum Question {
    Places,
    Transitions,
    Label(u8),
    Input(u8, u8),
    Output(u8, u8),
    Inhibits(u8, u8),
}

/// The name of a transition of the net.
fn transition(t: u8) -> &'static str {
    ["t", "u"]
        .get(t as usize)
        .copied()
        .unwrap_or("a third transition")
}

/// The name of a place of the net.
fn place(p: u8) -> &'static str {
    ["s", "h"]
        .get(p as usize)
        .copied()
        .unwrap_or("a third place")
}

impl fmt::Display for Question {
    fn fmt<W: fmt::Write>(&self, f: &mut fmt::Formatter<W>) -> fmt::Result {
        match *self {
            Question::Places => f.write_str("places"),
            Question::Transitions => f.write_str("transitions"),
            Question::Label(t) => write!(f, "label of {}", transition(t)),
            Question::Input(t, p) => write!(f, "input of {} at {}", transition(t), place(p)),
            Question::Output(t, p) => write!(f, "output of {} at {}", transition(t), place(p)),
            Question::Inhibits(t, p) => write!(f, "{} inhibits {}", place(p), transition(t)),
        }
    }
}

/// A question, and its answer, worked out by hand.
#[derive(Clone, Copy, Debug, PartialEq, Eq)]
struct Line {
    question: Question,
    by_hand: u64,
}

/// The label y: the byte of the letter highest, zero bytes below.
const LABEL_Y: u64 = 0x7900_0000_0000_0000;

const LABELS: [u64; 2] = [LABEL_X, LABEL_Y];

const LINES: [Line; 18] = [
    Line {
        question: Question::Places,
        by_hand: 2,
    },
    Line {
        question: Question::Transitions,
        by_hand: 2,
    },
    Line {
        question: Question::Label(0),
        by_hand: LABEL_X,
    },
    Line {
        question: Question::Label(1),
        by_hand: LABEL_Y,
    },
    Line {
        question: Question::Input(0, 0),
        by_hand: 1,
    },
    Line {
        question: Question::Input(0, 1),
        by_hand: 0,
    },
    Line {
        question: Question::Input(1, 0),
        by_hand: 2,
    },
    Line {
        question: Question::Input(1, 1),
        by_hand: 1,
    },
    Line {
        question: Question::Output(0, 0),
        by_hand: 1,
    },
    Line {
        question: Question::Output(0, 1),
        by_hand: 0,
    },
    Line {
        question: Question::Output(1, 0),
        by_hand: 0,
    },
    Line {
        question: Question::Output(1, 1),
        by_hand: 3,
    },
    Line {
        question: Question::Inhibits(0, 0),
        by_hand: 0,
    },
    Line {
        question: Question::Inhibits(0, 1),
        by_hand: 1,
    },
    Line {
        question: Question::Inhibits(1, 0),
        by_hand: 0,
    },
    Line {
        question: Question::Inhibits(1, 1),
        by_hand: 0,
    },
    Line {
        question: Question::Label(2),
        by_hand: 0,
    },
    Line {
        question: Question::Input(0, 2),
        by_hand: 0,
    },
];

const ARCS: &[Arc] = arcs![
    (0, 0, INPUT, 1),
    (0, 1, INHIBITOR, 1),
    (0, 0, OUTPUT, 1),
    (1, 0, INPUT, 2),
    (1, 1, INPUT, 1),
    (1, 1, OUTPUT, 3),
];

/// Builds the transition t. A refusal is none, here and in the next two: nothing is said of it, and nobody would read an error.
fn add_t(chart: &mut Chart) -> Option<()> {
    chart
        .open_transition(Name::of(b"t")?, Name::of(b"x")?)
        .ok()?;
    let row = chart.open_row()?;
    row.add_input(0, 1).ok()?;
    row.add_inhibitor(1).ok()?;
    row.add_output(0, 1).ok()?;
    chart.close_transition().ok()?;
    Some(())
}

/// Builds the transition u.
fn add_u(chart: &mut Chart) -> Option<()> {
    chart
        .open_transition(Name::of(b"u")?, Name::of(b"y")?)
        .ok()?;
    let row = chart.open_row()?;
    row.add_input(0, 2).ok()?;
    row.add_input(1, 1).ok()?;
    row.add_output(1, 3).ok()?;
    chart.close_transition().ok()?;
    Some(())
}

/// Builds the chart.
fn build() -> Option<Chart> {
    let mut chart = Chart::new();
    chart.declare_place(Name::of(b"s")?, 1).ok()?;
    chart.declare_place(Name::of(b"h")?, 0).ok()?;
    add_t(&mut chart)?;
    add_u(&mut chart)?;
    Some(chart)
}

/// What a net answers; 1 for yes and 0 for no.
fn ask<N: Net>(net: &N, question: Question) -> u64
    ensures { result ≡ answered (N.Net.meaning net.now) question }
{
    match question {
        Question::Places => u64::from(net.places()),
        Question::Transitions => u64::from(net.transitions()),
        Question::Label(t) => net.label(t),
        Question::Input(t, p) => u64::from(net.input(t, p)),
        Question::Output(t, p) => u64::from(net.output(t, p)),
        Question::Inhibits(t, p) => u64::from(net.inhibits(t, p)),
    }
}

/// Whether three answers are the same, and as worked by hand.
fn all_same(chart: u64, table: u64, arcs: u64, by_hand: u64) -> bool
    ensures { result ≡ (chart == table && (chart == arcs && nat_eq chart by_hand)) }
{
    chart == table && chart == arcs && chart == by_hand
}

/// Whether three nets answer a question alike, and as worked by hand.
fn is_as_by_hand<C: Net, T: Net, L: Net>(chart: &C, table: &T, arcs: &L, line: &Line) -> bool {
    let question = line.question;
    all_same(
        ask(chart, question),
        ask(table, question),
        ask(arcs, question),
        line.by_hand,
    )
}

/// Asks three nets every question, prints the answers, and says whether all are the same and as worked by hand.
fn compare<C: Net, T: Net, L: Net>(
    rt: &HostRuntime,
    chart: &C,
    table: &T,
    arcs: &L,
) -> io::Result<bool> {
    for Line { question, by_hand } in LINES {
        let a = ask(chart, question);
        let b = ask(table, question);
        let c = ask(arcs, question);
        println!(rt; "  {question}: chart {a}, table {b}, arc list {c}, by hand {by_hand}")?;
    }
    Ok(
        LINES
            .iter()
            .all(|line| is_as_by_hand(chart, table, arcs, line)),
    )
}

/// Prints the net in its three kinds, and says whether it came out as worked by hand.
pub fn run(rt: &HostRuntime) -> io::Result<bool> {
    rt.println("one net as a chart, as its plain copy and as an arc list")?;
    let agrees = match build() {
        Some(chart) => compare(
            rt,
            &chart,
            &Table::of(&chart),
            &ArcList::new(2, &LABELS, ARCS),
        )?,
        None => false,
    };
    let ending = ending(agrees);
    println!(rt; "  {ending}\n")?;
    Ok(agrees)
}
