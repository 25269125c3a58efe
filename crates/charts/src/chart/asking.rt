ghost use Rattle.std.specs.Prelude.{◌≡◌};
ghost use Rattle.names.specs.Meanings.{number_of};
ghost use Rattle.std.specs.List.{slice_get};
ghost use Rattle.std.specs.Option.{option_map};
ghost use Rattle.charts.specs.Charts.{chart_view};
ghost use Rattle.charts.specs.Naming.{position};
ghost use Rattle.charts.specs.Views.{declared_marking, label_names, place_names, transition_names};

use super::*;
use names::Name;

impl Chart {
    /// The name of the place `p`; none behind the last.
    pub fn place_name(&self, p: u8) -> Option<Name>
        ensures { option_map number_of result ≡ slice_get (place_names (chart_view self.now)) p }
    {
        self.places.name(p)
    }

    /// The name of the closed transition `t`; none behind the last.
    pub fn transition_name(&self, t: u8) -> Option<Name>
        ensures { option_map number_of result ≡ slice_get (transition_names (chart_view self.now)) t }
    {
        self.transitions.name(t)
    }

    /// The label of the closed transition `t`, as a name; none behind the last.
    pub fn label_name(&self, t: u8) -> Option<Name>
        ensures { option_map number_of result ≡ slice_get (label_names (chart_view self.now)) t }
    {
        self.transitions.label_name(t)
    }

    /// The declared marking of the place `p`, 0 behind the last.
    pub fn marking(&self, p: u8) -> u8
        ensures { result ≡ declared_marking (chart_view self.now) p }
    {
        self.places.marking(p)
    }

    /// The number of the place of this name.
    pub fn find_place(&self, name: Name) -> Option<u8>
        ensures { result ≡ position (number_of name) (place_names (chart_view self.now)) }
    {
        self.places.find(name)
    }

    /// The number of the closed transition of this name.
    pub fn find_transition(&self, name: Name) -> Option<u8>
        ensures { result ≡ position (number_of name) (transition_names (chart_view self.now)) }
    {
        self.transitions.find(name)
    }
}
