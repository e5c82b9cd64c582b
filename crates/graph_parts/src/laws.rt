//! What a cyclic part is: a law, the contract of a function that does nothing.

ghost use Rattle.std.specs.Prelude.{◌≡◌, ◌≢◌, ℕ, ◌<◌, ◌⊎◌, ◌↔◌, Bool, true, List, length, slice_index};
ghost use Rattle.graph_parts.specs.Divided.{AreCycles, is_cyclic_at};
ghost use Rattle.graph_parts.specs.Parts.{AreParts};

/// A part is cyclic where it has two or more nodes, or a node with a step to itself.
pub fn cyclic_parts_are_large_or_loop()
    ensures { (step : ℕ → ℕ → Bool) (numbers : List ℕ) (count : ℕ) (cyclic : List Bool)
        → AreParts step numbers count → AreCycles step numbers cyclic → (u : ℕ) → u < length numbers
        → (is_cyclic_at cyclic (slice_index numbers u) ≡ true)
        ↔ (((v : ℕ) × (v < length numbers) × (v ≢ u) × (slice_index numbers v ≡ slice_index numbers u))
        ⊎ (step u u ≡ true)) }
{}
