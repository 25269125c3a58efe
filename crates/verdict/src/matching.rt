//! Whether tokens can be paired with places.
ghost use Rattle.std.specs.Prelude.{◌≡◌, true, ◌↔◌, nat_lt, slice_index};
ghost use Rattle.std.specs.List.{list_all};
ghost use Rattle.bisimulation.specs.Lists.{related_lists, tokens_of};
ghost use Rattle.places.specs.Bags.{single, ◌⊖◌};
ghost use Rattle.verdict.specs.ShortLists.{listed};
ghost use Rattle.verdict.specs.Relating.{pairs_of};
ghost use Rattle.verdict.specs.Search.{Completes};

use crate::half::Half;
use crate::short_list::ShortList;

/// Whether the table of each token's place goes above `from`.
fn all_above(tops: &[u8; 16], tokens: &[u8], from: u8) -> bool
    ensures { result ≡ list_all (λ p. nat_lt from (slice_index tops.now p)) tokens.now }
{
    tokens
        .iter()
        .all(|p| from < tops.get(*p as usize).copied().unwrap_or(0))
}

/// The tokens without one on a place.
fn without(tokens: ShortList, place: u8) -> ShortList
    ensures { tokens_of (listed result) ≡ tokens_of (listed tokens) ⊖ single place }
{
    let mut rest = tokens;
    let _ = rest.remove(place);
    rest
}

/// Whether the tokens can be paired with the places chosen, and with later places, none of them below `from`.
pub(crate) fn completes(half: &Half, tokens: ShortList, chosen: &[u8], from: u8) -> bool
    ensures { (result ≡ true) ↔ Completes (pairs_of half.now.pairs) (tokens_of (listed tokens)) chosen.now from }
{
    let [place, later @ ..] = chosen else {
        return all_above(&half.tops, tokens.as_slice(), from);
    };
    // A loop and no `any`: the borrow checker does not cover a function that calls itself from a closure.
    for token in tokens.as_slice() {
        if half.pairs.relates(*token, *place)
            && completes(half, without(tokens, *token), later, from)
        {
            return true;
        }
    }
    false
}

/// Whether the bags of two lists are related.
pub(crate) fn related(half: &Half, xs: ShortList, ys: &[u8]) -> bool
    ensures { result ≡ related_lists (pairs_of half.now.pairs) (listed xs) ys.now }
{
    completes(half, xs, ys, 16)
}
