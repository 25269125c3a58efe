//! Charts: full tables of a net, with names and declared markings.

#![tactic(auto)]

mod chart;
mod entries;
mod named;
mod opened;
mod place_table;
mod refusals;
mod row;
mod transition_table;
mod weights;

pub use chart::Chart;
pub use nets::Role;
pub use refusals::{ChartRefusal, RowRefusal};
pub use row::ChartRow;
