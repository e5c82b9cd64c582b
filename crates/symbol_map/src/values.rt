//! What an assignment of the variables says of the atoms and shows of a map. An atom is found by a binary search, in
//! time logarithmic in the number of places.

ghost use Rattle.std.specs.Prelude.{◌≡◌, ◌-◌, ◌≤◌, Some, length, slice_get};
ghost use Rattle.std.specs.Option.{option_map};
ghost use Rattle.asp_base.specs.Literal.{all_hold};
ghost use Rattle.clause_store.specs.Assigned.{true_in};
ghost use Rattle.symbol_map.specs.Restrict.{restrict};

use crate::map::SymbolMap;
use clause_store::Assignment;
use evaluation::{all_hold, literal_holds};

impl SymbolMap {
    /// Whether the atom is true under an assignment of the map's variables. An atom that is not in the map is false.
    pub fn is_true(&self, values: &Assignment, atom: u32) -> bool
        ensures { result ≡ restrict self.now (true_in values.now) atom }
    {
        let places = self.atoms.as_slice();
        match places.binary_search_by_key(&atom, |place| place.atom) {
            Ok(i) => literal_holds(values, places[i].lit),
            Err(_) => false,
        }
    }

    /// Whether the i-th show, from 1, is shown under an assignment of the map's variables: all literals of its
    /// condition are true.
    pub fn shown(&self, values: &Assignment, i: u64) -> bool
        requires from { 1 ≤ i }
        requires to { i ≤ length self.now.shows }
        ensures { option_map
            (λ show. all_hold show.condition (true_in values.now) (true_in values.now))
            (slice_get self.now.shows (i - 1)) ≡ Some result }
    {
        let show = &self.shows.as_slice()[i as usize - 1];
        all_hold(values, show.condition.as_slice())
    }
}
