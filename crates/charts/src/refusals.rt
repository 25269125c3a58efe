//! Why a row or a chart is not changed.
ghost use Rattle.std.specs.Prelude.{◌≡◌};
ghost use Rattle.charts.specs.Refusals.{chart_number, row_number};

use nets::Role;

/// Why nothing is added to a row.
#[derive(Clone, Copy, Debug, PartialEq, Eq)]
pub enum RowRefusal {
    /// 3: the weight is not 1 to 4.
    Weight,
    /// 5: there is no such place.
    NoSuchPlace,
    /// 7: the place has that role in the row already.
    Repeated,
    /// 7: the weights of the role would add up to more than 4.
    TooHeavy,
}

impl RowRefusal {
    /// The number of the refusal.
    pub fn number(&self) -> u8
        ensures { result ≡ row_number self.now }
    {
        match self {
            RowRefusal::Weight => 3,
            RowRefusal::NoSuchPlace => 5,
            RowRefusal::Repeated | RowRefusal::TooHeavy => 7,
        }
    }
}

/// Why a chart is not changed.
#[derive(Clone, Copy, Debug, PartialEq, Eq)]
pub enum ChartRefusal {
    /// 3: the marking is above 64.
    Marking,
    /// 4: the name is declared already.
    DeclaredAgain,
    /// 5: the row names a place that is not declared.
    NotDeclared,
    /// 6: there are 16 places already.
    TooManyPlaces,
    /// 6: the declared markings would be above 64 together.
    TooManyTokens,
    /// 6: there are 32 transitions already.
    TooManyTransitions,
    /// 7: the weights of the role add up to too little.
    Sum(Role),
}

impl ChartRefusal {
    /// The number of the refusal.
    pub fn number(&self) -> u8
        ensures { result ≡ chart_number self.now }
    {
        match self {
            ChartRefusal::Marking => 3,
            ChartRefusal::DeclaredAgain => 4,
            ChartRefusal::NotDeclared => 5,
            ChartRefusal::TooManyPlaces
            | ChartRefusal::TooManyTokens
            | ChartRefusal::TooManyTransitions => 6,
            ChartRefusal::Sum(_) => 7,
        }
    }
}
