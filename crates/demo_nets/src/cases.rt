//! The nets and relations of the verdicts, with what was worked out by hand.
ghost use Rattle.std.specs.Prelude.{◌≡◌, ◌<◌, length};

use crate::arcs::{INHIBITOR, INPUT, OUTPUT};
use arc_lists::{Arc, ArcList};
use places::Side;
use verdict::{AnsweredObligation, Obligation};

/// A net with the names of its places and transitions.
#[derive(Clone, Copy, Debug, PartialEq, Eq)]
pub struct NamedNet<'a> {
    pub words: &'a str,
    pub places: &'a [&'a str],
    pub transitions: &'a [&'a str],
    pub labels: &'a [u64],
    pub arcs: &'a [Arc],
}

impl<'a> NamedNet<'a> {
    /// How many places the net has; 0 where the number does not fit.
    fn place_count(&self) -> u8
        ensures { length self.now.places.now < 256 → result ≡ length self.now.places.now }
    {
        u8::try_from(self.places.len()).unwrap_or(0)
    }

    /// The net as an arc list.
    pub fn arc_list(&self) -> ArcList<'a> {
        ArcList::new(self.place_count(), self.labels, self.arcs)
    }

    /// The name of a place.
    pub fn place(&self, number: u8) -> &'a str {
        name(self.places, number)
    }

    /// The name of a transition.
    pub fn transition(&self, number: u8) -> &'a str {
        name(self.transitions, number)
    }
}

/// The name of a number.
// The two programs share no crate, so that this stands in both.
fn name<'a>(names: &[&'a str], number: u8) -> &'a str {
    names.get(number as usize).copied().unwrap_or("?")
}

/// An obligation: a transition of one side, and a bag of places of the other side.
#[derive(Clone, Copy, Debug, PartialEq, Eq)]
pub struct Owed<'a> {
    pub side: Side,
    pub transition: u8,
    pub bag: &'a [u8],
}

impl<'a> From<&'a Obligation> for Owed<'a> {
    fn from(obligation: &'a Obligation) -> Owed<'a> {
        Owed {
            side: obligation.side,
            transition: obligation.transition,
            bag: obligation.bag.as_slice(),
        }
    }
}

/// An obligation and its answer, or none.
#[derive(Clone, Copy, Debug, PartialEq, Eq)]
pub struct Answered<'a> {
    pub owed: Owed<'a>,
    pub answer: Option<u8>,
}

impl<'a> From<&'a AnsweredObligation> for Answered<'a> {
    fn from(entry: &'a AnsweredObligation) -> Answered<'a> {
        Answered {
            owed: Owed::from(&entry.obligation),
            answer: entry.answer,
        }
    }
}

/// The refusal of a relation: its number, and the first obligation that has no answer.
#[derive(Clone, Copy, Debug, PartialEq, Eq)]
pub struct Refused<'a> {
    pub number: u8,
    pub owed: Owed<'a>,
}

/// A verdict: the number of obligations, or the refusal.
pub type Outcome<'a> = Result<u32, Refused<'a>>;

/// Two nets and a relation, with the obligations in order and the verdict.
#[derive(Clone, Copy, Debug, PartialEq, Eq)]
pub struct Case<'a> {
    pub title: &'a str,
    pub left: &'a NamedNet<'a>,
    pub right: &'a NamedNet<'a>,
    pub relation: &'a [(u8, u8)],
    pub owed: &'a [Answered<'a>],
    pub expected: Outcome<'a>,
}

impl<'a> Case<'a> {
    /// The net of `side`.
    pub fn mover(&self, side: Side) -> &'a NamedNet<'a> {
        match side {
            Side::Left => self.left,
            Side::Right => self.right,
        }
    }

    /// The net that answers when the net of `side` moves.
    pub fn other(&self, side: Side) -> &'a NamedNet<'a> {
        match side {
            Side::Left => self.right,
            Side::Right => self.left,
        }
    }
}

/// The labels a, b and x: the byte of the letter highest, zero bytes below.
const LABEL_A: u64 = 0x6100_0000_0000_0000;

const LABEL_B: u64 = 0x6200_0000_0000_0000;

pub const LABEL_X: u64 = 0x7800_0000_0000_0000;

const NET_A: NamedNet = NamedNet {
    words: "p, q; go : a, p -> q; back : b, q -> p",
    places: &["p", "q"],
    transitions: &["go", "back"],
    labels: &[LABEL_A, LABEL_B],
    arcs: arcs![
        (0, 0, INPUT, 1),
        (0, 1, OUTPUT, 1),
        (1, 1, INPUT, 1),
        (1, 0, OUTPUT, 1),
    ],
};

const NET_B: NamedNet = NamedNet {
    words: "u, v, w, z; g1 : a, u -> v; k1 : b, v -> w; g2 : a, w -> z; k2 : b, z -> u",
    places: &["u", "v", "w", "z"],
    transitions: &["g1", "k1", "g2", "k2"],
    labels: &[LABEL_A, LABEL_B, LABEL_A, LABEL_B],
    arcs: arcs![
        (0, 0, INPUT, 1),
        (0, 1, OUTPUT, 1),
        (1, 1, INPUT, 1),
        (1, 2, OUTPUT, 1),
        (2, 2, INPUT, 1),
        (2, 3, OUTPUT, 1),
        (3, 3, INPUT, 1),
        (3, 0, OUTPUT, 1),
    ],
};

const NET_C: NamedNet = NamedNet {
    words: "s, h; t : x, s -> s, not while h",
    places: &["s", "h"],
    transitions: &["t"],
    labels: &[LABEL_X],
    arcs: arcs![(0, 0, INPUT, 1), (0, 0, OUTPUT, 1), (0, 1, INHIBITOR, 1),],
};

const NET_D: NamedNet = NamedNet {
    words: "s, h; t : x, s -> s",
    places: &["s", "h"],
    transitions: &["t"],
    labels: &[LABEL_X],
    arcs: arcs![(0, 0, INPUT, 1), (0, 0, OUTPUT, 1),],
};

const NET_E: NamedNet = NamedNet {
    words: "s; t : x, s -> s, not while s",
    places: &["s"],
    transitions: &["t"],
    labels: &[LABEL_X],
    arcs: arcs![(0, 0, INPUT, 1), (0, 0, OUTPUT, 1), (0, 0, INHIBITOR, 1),],
};

const NET_F: NamedNet = NamedNet {
    words: "s",
    places: &["s"],
    transitions: &[],
    labels: &[],
    arcs: &[],
};

const NET_G: NamedNet = NamedNet {
    words: "i, j; t : x, i j -> i j",
    places: &["i", "j"],
    transitions: &["t"],
    labels: &[LABEL_X],
    arcs: arcs![
        (0, 0, INPUT, 1),
        (0, 1, INPUT, 1),
        (0, 0, OUTPUT, 1),
        (0, 1, OUTPUT, 1),
    ],
};

/// How many cases there are.
pub const CASE_COUNT: usize = 8;

pub const CASES: [Case; CASE_COUNT] = [
    Case {
        title: "A and B under K",
        left: &NET_A,
        right: &NET_B,
        relation: &[(0, 0), (0, 2), (1, 1), (1, 3)],
        owed: &[
            Answered {
                owed: Owed {
                    side: Side::Left,
                    transition: 0,
                    bag: &[0],
                },
                answer: Some(0),
            },
            Answered {
                owed: Owed {
                    side: Side::Left,
                    transition: 0,
                    bag: &[2],
                },
                answer: Some(2),
            },
            Answered {
                owed: Owed {
                    side: Side::Left,
                    transition: 1,
                    bag: &[1],
                },
                answer: Some(1),
            },
            Answered {
                owed: Owed {
                    side: Side::Left,
                    transition: 1,
                    bag: &[3],
                },
                answer: Some(3),
            },
            Answered {
                owed: Owed {
                    side: Side::Right,
                    transition: 0,
                    bag: &[0],
                },
                answer: Some(0),
            },
            Answered {
                owed: Owed {
                    side: Side::Right,
                    transition: 1,
                    bag: &[1],
                },
                answer: Some(1),
            },
            Answered {
                owed: Owed {
                    side: Side::Right,
                    transition: 2,
                    bag: &[0],
                },
                answer: Some(0),
            },
            Answered {
                owed: Owed {
                    side: Side::Right,
                    transition: 3,
                    bag: &[1],
                },
                answer: Some(1),
            },
        ],
        expected: Ok(8),
    },
    Case {
        title: "A and B under K without (p,w)",
        left: &NET_A,
        right: &NET_B,
        relation: &[(0, 0), (1, 1), (1, 3)],
        owed: &[
            Answered {
                owed: Owed {
                    side: Side::Left,
                    transition: 0,
                    bag: &[0],
                },
                answer: Some(0),
            },
            Answered {
                owed: Owed {
                    side: Side::Left,
                    transition: 1,
                    bag: &[1],
                },
                answer: None,
            },
            Answered {
                owed: Owed {
                    side: Side::Left,
                    transition: 1,
                    bag: &[3],
                },
                answer: Some(3),
            },
            Answered {
                owed: Owed {
                    side: Side::Right,
                    transition: 0,
                    bag: &[0],
                },
                answer: Some(0),
            },
            Answered {
                owed: Owed {
                    side: Side::Right,
                    transition: 1,
                    bag: &[1],
                },
                answer: None,
            },
            Answered {
                owed: Owed {
                    side: Side::Right,
                    transition: 3,
                    bag: &[1],
                },
                answer: Some(1),
            },
        ],
        expected: Err(Refused {
            number: 34,
            owed: Owed {
                side: Side::Left,
                transition: 1,
                bag: &[1],
            },
        }),
    },
    Case {
        title: "C and D under (s,s)",
        left: &NET_C,
        right: &NET_D,
        relation: &[(0, 0)],
        owed: &[
            Answered {
                owed: Owed {
                    side: Side::Left,
                    transition: 0,
                    bag: &[0],
                },
                answer: Some(0),
            },
            Answered {
                owed: Owed {
                    side: Side::Right,
                    transition: 0,
                    bag: &[0],
                },
                answer: Some(0),
            },
        ],
        expected: Ok(2),
    },
    Case {
        title: "C and D under (s,s) and (h,h)",
        left: &NET_C,
        right: &NET_D,
        relation: &[(0, 0), (1, 1)],
        owed: &[
            Answered {
                owed: Owed {
                    side: Side::Left,
                    transition: 0,
                    bag: &[0],
                },
                answer: None,
            },
            Answered {
                owed: Owed {
                    side: Side::Right,
                    transition: 0,
                    bag: &[0],
                },
                answer: None,
            },
        ],
        expected: Err(Refused {
            number: 34,
            owed: Owed {
                side: Side::Left,
                transition: 0,
                bag: &[0],
            },
        }),
    },
    Case {
        title: "E and F under (s,s)",
        left: &NET_E,
        right: &NET_F,
        relation: &[(0, 0)],
        owed: &[],
        expected: Ok(0),
    },
    Case {
        title: "G and G under the identity",
        left: &NET_G,
        right: &NET_G,
        relation: &[(0, 0), (1, 1)],
        owed: &[
            Answered {
                owed: Owed {
                    side: Side::Left,
                    transition: 0,
                    bag: &[0, 1],
                },
                answer: Some(0),
            },
            Answered {
                owed: Owed {
                    side: Side::Right,
                    transition: 0,
                    bag: &[0, 1],
                },
                answer: Some(0),
            },
        ],
        expected: Ok(2),
    },
    Case {
        title: "G and G under the exchange",
        left: &NET_G,
        right: &NET_G,
        relation: &[(0, 1), (1, 0)],
        owed: &[
            Answered {
                owed: Owed {
                    side: Side::Left,
                    transition: 0,
                    bag: &[0, 1],
                },
                answer: Some(0),
            },
            Answered {
                owed: Owed {
                    side: Side::Right,
                    transition: 0,
                    bag: &[0, 1],
                },
                answer: Some(0),
            },
        ],
        expected: Ok(2),
    },
    Case {
        title: "G and G under the union of both",
        left: &NET_G,
        right: &NET_G,
        relation: &[(0, 0), (0, 1), (1, 0), (1, 1)],
        owed: &[
            Answered {
                owed: Owed {
                    side: Side::Left,
                    transition: 0,
                    bag: &[0, 0],
                },
                answer: None,
            },
            Answered {
                owed: Owed {
                    side: Side::Left,
                    transition: 0,
                    bag: &[0, 1],
                },
                answer: Some(0),
            },
            Answered {
                owed: Owed {
                    side: Side::Left,
                    transition: 0,
                    bag: &[1, 1],
                },
                answer: None,
            },
            Answered {
                owed: Owed {
                    side: Side::Right,
                    transition: 0,
                    bag: &[0, 0],
                },
                answer: None,
            },
            Answered {
                owed: Owed {
                    side: Side::Right,
                    transition: 0,
                    bag: &[0, 1],
                },
                answer: Some(0),
            },
            Answered {
                owed: Owed {
                    side: Side::Right,
                    transition: 0,
                    bag: &[1, 1],
                },
                answer: None,
            },
        ],
        expected: Err(Refused {
            number: 34,
            owed: Owed {
                side: Side::Left,
                transition: 0,
                bag: &[0, 0],
            },
        }),
    },
];
