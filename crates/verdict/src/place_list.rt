//! A list of places, handed out.
ghost use Rattle.std.specs.Prelude.{◌≡◌, [], nat_eq, take};
ghost use Rattle.std.proofs.Common.{rules};
ghost use Rattle.std.specs.Cmp.{on_equiv, on_per};
ghost use Rattle.std.specs.Cmp.Lexicographic.{pointwise, lists_equiv, lists_per};
ghost use Rattle.std.specs.Cmp.Rules.{comparing};
ghost use Rattle.verdict.specs.PlaceLists.{places_in};
ghost use Rattle.verdict.specs.ShortLists.{listed};

use crate::short_list::ShortList;

/// The bag of an obligation: an ascending list of up to four places, each as often as the bag holds it.
// It is no `Sequence`, and has no ghost field: the checker does not cover a `match` on an enum of a crate's own that holds a
// struct with one, and a refusal holds this list.
#[derive(Clone, Copy, Debug)]
pub struct PlaceList {
    items: [u8; 4],
    len: usize,
}

/// The first `len` of some places, or all of them.
fn front(items: &[u8], len: usize) -> &[u8]
    ensures { result.now ≡ take len items.now }
{
    items.get(..len).unwrap_or(items)
}

impl PlaceList {
    /// The list with no places.
    pub(crate) fn new() -> PlaceList
        ensures { places_in result ≡ [] }
    {
        PlaceList {
            items: [0; 4],
            len: 0,
        }
    }

    /// The places of a short list.
    pub(crate) fn of(list: ShortList) -> PlaceList
        ensures { places_in result ≡ listed list }
    {
        let mut items = [0; 4];
        let len = list.len();
        items[..len].copy_from_slice(list.as_slice());
        PlaceList { items, len }
    }

    /// The places, in ascending order.
    pub fn as_slice(&self) -> &[u8]
        ensures { result.now ≡ places_in self.now }
    {
        front(&self.items, self.len)
    }
}

/// Two lists are equal where their places are, whatever stands behind these.
impl PartialEq for PlaceList {
    ghost eq = { λ xs ys. pointwise nat_eq (places_in xs) (places_in ys) };

    ghost laws = { on_per places_in (lists_per (Prim.search (comparing, rules))) };

    fn eq(&self, other: &PlaceList) -> bool {
        self.as_slice() == other.as_slice()
    }
}

impl Eq for PlaceList {
    ghost laws = { on_equiv places_in (lists_equiv (Prim.search (comparing, rules))) };
}
