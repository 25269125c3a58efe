//! What is wrong: with a number, with a line, with a text.
ghost use Rattle.std.specs.Prelude.{◌≡◌};
ghost use Rattle.faults.specs.Numbers.{line_fault, number_fault, text_fault};
ghost use Rattle.faults.specs.declared.causes.Cause.TheVariants.{Line};
ghost use Rattle.faults.specs.declared.causes.LineFault.TheVariants.{Number};

/// What is wrong with a number.
#[derive(Clone, Copy, Debug, PartialEq, Eq)]
pub enum NumberFault {
    /// 3, of a net text: a zero before another digit.
    LeadingZero,
    /// 3, of a net text: a marking not 0 to 64, a weight not 1 to 4, or an inhibitor's number not 1.
    OutOfRange,
    /// 14, of a relation text: not the number of places or of pairs, or the number of no place.
    Mismatch,
}

/// What is wrong with a line.
#[derive(Clone, Copy, Debug, PartialEq, Eq)]
pub enum LineFault {
    /// 2: a line of a net text fits no form.
    NetForm,
    /// 12: a line of a relation text fits no form.
    RelationForm,
    /// 3 or 14: a number is wrong.
    Number(NumberFault),
    /// 4: a place or a transition is declared again, or there is a second `net`.
    DeclaredAgain,
    /// 5: a place is not declared earlier.
    NotDeclared,
    /// 6: a 17th place, a 33rd transition, or declared markings above 64 together.
    TooMany,
    /// 7: a place stands again in the same role.
    RoleAgain,
    /// 7: a sum of weights is outside its limits.
    SumOutside,
    /// 13: a second `p`.
    HeaderAgain,
    /// 13: no `p` before an `e`, or none in the text.
    HeaderMissing,
    /// 15: a pair again.
    PairAgain,
}

/// What is wrong with a text.
#[derive(Clone, Copy, Debug, PartialEq, Eq)]
pub enum Cause {
    /// 1: a net text of more than 8,192 bytes.
    NetTooLong,
    /// 11: a relation text of more than 4,096 bytes.
    RelationTooLong,
    /// A line is wrong.
    Line(LineFault),
}

/// Something wrong in a line, and the column at which it stands.
#[derive(Clone, Copy, Debug, PartialEq, Eq)]
pub struct Flaw<C> {
    pub cause: C,
    pub column: usize,
}

impl From<Flaw<NumberFault>> for Flaw<LineFault> {
    ghost from_gives = { λ f r. r ≡ record { cause = Number f.cause; column = f.column } };

    fn from(f: Flaw<NumberFault>) -> Flaw<LineFault> {
        Flaw {
            cause: LineFault::Number(f.cause),
            column: f.column,
        }
    }
}

impl From<LineFault> for Cause {
    ghost from_gives = { λ f r. r ≡ Line f };

    fn from(fault: LineFault) -> Cause {
        Cause::Line(fault)
    }
}

impl NumberFault {
    /// The number of the fault.
    pub fn number(&self) -> u8
        ensures { result ≡ number_fault self.now }
    {
        match self {
            NumberFault::LeadingZero | NumberFault::OutOfRange => 3,
            NumberFault::Mismatch => 14,
        }
    }
}

impl LineFault {
    /// The number of the fault.
    pub fn number(&self) -> u8
        ensures { result ≡ line_fault self.now }
    {
        match self {
            LineFault::NetForm => 2,
            LineFault::RelationForm => 12,
            LineFault::Number(f) => f.number(),
            LineFault::DeclaredAgain => 4,
            LineFault::NotDeclared => 5,
            LineFault::TooMany => 6,
            LineFault::RoleAgain | LineFault::SumOutside => 7,
            LineFault::HeaderAgain | LineFault::HeaderMissing => 13,
            LineFault::PairAgain => 15,
        }
    }
}

impl Cause {
    /// The number of the fault.
    pub fn number(&self) -> u8
        ensures { result ≡ text_fault self.now }
    {
        match self {
            Cause::NetTooLong => 1,
            Cause::RelationTooLong => 11,
            Cause::Line(f) => f.number(),
        }
    }
}
