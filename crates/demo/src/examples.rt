//! The examples, with what was worked out by hand.
use places::{LayRefusal, PlaceBag, Side};

/// A list in which each element stands four times: a constant can call no function.
macro_rules! four_times {
    ($($element:expr),* $(,)?) => {
        [$($element, $element, $element, $element),*]
    };
}

/// The refusal of an example: its number, with the side and the places that it shows. A plain number, as it is printed
/// and as a caller gets it: a constant can make no set of places, so none of the library's refusals.
#[derive(Clone, Copy, Debug, PartialEq, Eq)]
pub struct Shown<'a> {
    pub number: u8,
    pub side: Side,
    pub places: &'a [u8],
}

/// What an example is to give, worked out by hand: pairs, in whatever order, or a refusal.
pub type Expected<'a> = Result<&'a [(u8, u8)], Shown<'a>>;

/// Two bags, as lists of tokens, and a relation, as a list of pairs.
#[derive(Clone, Copy, Debug, PartialEq, Eq)]
pub struct Example<'a> {
    pub title: &'a str,
    pub left_names: &'a [&'a str],
    pub right_names: &'a [&'a str],
    pub left: &'a [u8],
    pub right: &'a [u8],
    pub relation: &'a [(u8, u8)],
    pub expected: Expected<'a>,
}

impl<'a> Example<'a> {
    /// The names of the places of a side.
    pub fn names(&self, side: Side) -> &'a [&'a str] {
        match side {
            Side::Left => self.left_names,
            Side::Right => self.right_names,
        }
    }

    /// The left and the right bag, or the first refusal of a token.
    pub fn bags(&self) -> Result<(PlaceBag, PlaceBag), LayRefusal> {
        Ok((
            PlaceBag::try_from(self.left)?,
            PlaceBag::try_from(self.right)?,
        ))
    }
}

const PQ: [&str; 2] = ["p", "q"];

const UVWZ: [&str; 4] = ["u", "v", "w", "z"];

const S12: [&str; 2] = ["s1", "s2"];

const S34: [&str; 2] = ["s3", "s4"];

const LEFTS: [&str; 16] = [
    "a0", "a1", "a2", "a3", "a4", "a5", "a6", "a7", "a8", "a9", "a10", "a11", "a12", "a13", "a14",
    "a15",
];

const RIGHTS: [&str; 16] = [
    "b0", "b1", "b2", "b3", "b4", "b5", "b6", "b7", "b8", "b9", "b10", "b11", "b12", "b13", "b14",
    "b15",
];

/// The relation of p with u and w, and of q with v and z.
const K: [(u8, u8); 4] = [(0, 0), (0, 2), (1, 1), (1, 3)];

/// Four tokens on each of the 16 places.
const FOUR_EACH: [u8; 64] = four_times![0, 1, 2, 3, 4, 5, 6, 7, 8, 9, 10, 11, 12, 13, 14, 15];

/// Each place with the place of its own number and the next; the last with the first alone.
const STEPS: [(u8, u8); 31] = [
    (0, 0),
    (0, 1),
    (1, 1),
    (1, 2),
    (2, 2),
    (2, 3),
    (3, 3),
    (3, 4),
    (4, 4),
    (4, 5),
    (5, 5),
    (5, 6),
    (6, 6),
    (6, 7),
    (7, 7),
    (7, 8),
    (8, 8),
    (8, 9),
    (9, 9),
    (9, 10),
    (10, 10),
    (10, 11),
    (11, 11),
    (11, 12),
    (12, 12),
    (12, 13),
    (13, 13),
    (13, 14),
    (14, 14),
    (14, 15),
    (15, 0),
];

/// The last place can only go to the first, so that each other place has to go to the next.
const ALL_STEPPED: [(u8, u8); 64] = four_times![
    (0, 1),
    (1, 2),
    (2, 3),
    (3, 4),
    (4, 5),
    (5, 6),
    (6, 7),
    (7, 8),
    (8, 9),
    (9, 10),
    (10, 11),
    (11, 12),
    (12, 13),
    (13, 14),
    (14, 15),
    (15, 0),
];

/// How many examples there are.
pub const EXAMPLE_COUNT: usize = 8;

pub static PAIRINGS: [Example<'static>; EXAMPLE_COUNT] = [
    Example {
        title: "two tokens on p against one each on u and v",
        left_names: &PQ,
        right_names: &UVWZ,
        left: &[0, 0],
        right: &[0, 1],
        relation: &K,
        expected: Err(Shown {
            number: 33,
            side: Side::Left,
            places: &[0],
        }),
    },
    Example {
        title: "p and q against u and v",
        left_names: &PQ,
        right_names: &UVWZ,
        left: &[0, 1],
        right: &[0, 1],
        relation: &K,
        expected: Ok(&[(0, 0), (1, 1)]),
    },
    Example {
        title: "s1 and s2 against s3 and s4, where s1 must not take s4",
        left_names: &S12,
        right_names: &S34,
        left: &[0, 1],
        right: &[0, 1],
        relation: &[(0, 0), (0, 1), (1, 1)],
        expected: Ok(&[(0, 0), (1, 1)]),
    },
    Example {
        title: "64 tokens a side, each place moved on by the last",
        left_names: &LEFTS,
        right_names: &RIGHTS,
        left: &FOUR_EACH,
        right: &FOUR_EACH,
        relation: &STEPS,
        expected: Ok(&ALL_STEPPED),
    },
    Example {
        title: "two empty bags",
        left_names: &PQ,
        right_names: &UVWZ,
        left: &[],
        right: &[],
        relation: &K,
        expected: Ok(&[]),
    },
    Example {
        title: "the right bag larger than the left",
        left_names: &PQ,
        right_names: &UVWZ,
        left: &[0, 1],
        right: &[0, 1, 3],
        relation: &K,
        expected: Err(Shown {
            number: 33,
            side: Side::Right,
            places: &[0, 1, 3],
        }),
    },
    Example {
        title: "the left bag larger than the right",
        left_names: &PQ,
        right_names: &UVWZ,
        left: &[1, 0, 1],
        right: &[2],
        relation: &K,
        expected: Err(Shown {
            number: 33,
            side: Side::Left,
            places: &[0, 1],
        }),
    },
    Example {
        title: "the empty relation",
        left_names: &PQ,
        right_names: &UVWZ,
        left: &[1],
        right: &[0],
        relation: &[],
        expected: Err(Shown {
            number: 33,
            side: Side::Left,
            places: &[1],
        }),
    },
];
