//! Reading a slice of arcs.
ghost use Rattle.std.specs.Prelude.{◌≡◌, map, fold, filter, min, slice_index};
ghost use Rattle.std.specs.List.{range_with_len};
ghost use Rattle.places.specs.Sets.{size};
ghost use Rattle.arc_lists.specs.Arcs.{arc_bag, capped};
ghost use Rattle.arc_lists.specs.declared.arc.Arc.{Arc};
ghost use Rattle.arc_lists.specs.Links.{link_weights, role_number, some_weighs, weighs};
ghost use Rattle.arc_lists.specs.Lists.{arc_passes, arcs_pass, in_range, limits_pass, list_passes, sums_fit, sums_pass};

use crate::arc::Arc;
use crate::kind::Kind;
use crate::link::Link;
use nets::{LEAST_SUM, MOST_SUM, Role};

/// Whether an arc weighs a link.
fn is_of(a: &Arc, link: Link) -> bool
    ensures { result ≡ weighs link a.now }
{
    a.kind == link.kind.number() && a.transition == link.transition && a.place == link.place
}

/// Adds up the weights of the arcs of a link, and stays at 255 from there on.
fn add_up(arcs: &[Arc], link: Link) -> u8
    ensures { result ≡ fold (capped (λ (a : Arc). a.weight)) 0 (filter (weighs link) arcs.now) }
{
    arcs.iter()
        .filter(|a| is_of(a, link))
        .fold(0u8, |sum, a| sum.saturating_add(a.weight))
}

/// The sum of the weights of the arcs of a link, or 255 where it is more.
pub(crate) fn weight_of(arcs: &[Arc], link: Link) -> u8
    ensures { result ≡ min (link_weights link arcs.now) 255 }
{
    add_up(arcs, link)
}

/// Whether some arc weighs a link.
pub(crate) fn any_of(arcs: &[Arc], link: Link) -> bool
    ensures { result ≡ some_weighs link arcs.now }
{
    arcs.iter().any(|a| is_of(a, link))
}

/// Adds up the weights of a role at all places, and stays at 255 from there on.
fn add_up_places(arcs: &[Arc], role: Role, transition: u8) -> u8
    ensures { result ≡ fold (capped (λ w. w)) 0 (map (λ p. min (arc_bag (role_number role) arcs.now transition p) 255) (range_with_len 0 16)) }
{
    let kind = Kind::from(role);
    (0..16u8)
        .map(|place| weight_of(
            arcs,
            Link {
                kind,
                transition,
                place,
            },
        ))
        .fold(0u8, |sum, weight| sum.saturating_add(weight))
}

/// The weights of a role at all places, or 255 where they are more.
fn weight_sum(arcs: &[Arc], role: Role, transition: u8) -> u8
    ensures { result ≡ min (size (arc_bag (role_number role) arcs.now transition)) 255 }
{
    add_up_places(arcs, role, transition)
}

/// Whether a sum is neither too small nor too large.
fn lies_in_range(sum: u8) -> bool
    ensures { result ≡ in_range 1 sum }
{
    (LEAST_SUM..=MOST_SUM).contains(&sum)
}

/// Whether the weights of a role add up to a sum in range.
fn sum_fits(arcs: &[Arc], role: Role, t: u8) -> bool
    ensures { result ≡ in_range 1 (size (arc_bag (role_number role) arcs.now t)) }
{
    lies_in_range(weight_sum(arcs, role, t))
}

/// Whether the sums of a transition fit.
fn both_fit(arcs: &[Arc], t: u8) -> bool
    ensures { result ≡ sums_fit arcs.now t }
{
    sum_fits(arcs, Role::Input, t) && sum_fits(arcs, Role::Output, t)
}

/// Whether the sums of all transitions fit.
fn all_fit(transitions: u8, arcs: &[Arc]) -> bool
    ensures { result ≡ sums_pass transitions arcs.now }
{
    (0..transitions).all(|t| both_fit(arcs, t))
}

/// Whether an arc passes beside the arcs before it.
fn one_passes(places: u8, transitions: u8, before: &[Arc], a: &Arc) -> bool
    ensures { result ≡ arc_passes places transitions before.now a.now }
{
    a.transition < transitions
        && a.place < places
        && a.link().is_ok_and(|link| (1..=link.kind.most()).contains(&a.weight)
            && !any_of(before, link))
}

/// Whether the arcs pass, one by one.
fn all_pass(places: u8, transitions: u8, arcs: &[Arc]) -> bool
    ensures { result ≡ arcs_pass places transitions arcs.now }
{
    arcs.iter()
        .enumerate()
        .all(|(i, a)| one_passes(places, transitions, &arcs[..i], a))
}

/// Whether there are few enough places and labels.
fn few_enough(places: u8, labels: &[u64]) -> bool
    ensures { result ≡ limits_pass places labels.now }
{
    places <= 16 && labels.len() <= 32
}

/// Whether a list passes.
pub(crate) fn passes(places: u8, labels: &[u64], arcs: &[Arc]) -> bool
    ensures { result ≡ list_passes places labels.now arcs.now }
{
    if !few_enough(places, labels) {
        return false;
    }
    let transitions = labels.len() as u8;
    all_pass(places, transitions, arcs) && all_fit(transitions, arcs)
}

/// The label of a transition, or 0 past the last.
pub(crate) fn label_at(labels: &[u64], t: u8) -> u64
    ensures { result ≡ slice_index labels.now t }
{
    labels.get(t as usize).copied().unwrap_or(0)
}
