//! Laws of soft clauses and of their scale, each the contract of a function that does nothing.

ghost use Rattle.std.specs.Prelude.{◌≡◌, ◌↔◌, ◌<◌, ◌+◌, ◌^◌, ℤ, pos, List, map, Some, None};
ghost use Rattle.asp_base.specs.Literal.{Literal};
ghost use Rattle.asp_base.specs.Sets.{Set};
ghost use Rattle.clause_store.specs.Models.{soft_cost};
ghost use Rattle.clause_store.specs.Soft.{weights_of};
ghost use Rattle.ground_program.specs.Stable.{costs_of};
ghost use Rattle.ground_program.specs.declared.program.Level.{Level};
ghost use Rattle.soft_costs.specs.Passing.{PassesAt, renamed};
ghost use Rattle.soft_costs.specs.Softening.{offsets_of, soft_of, too_large_at};
ghost use Rattle.symbol_map.specs.Scale.{scale_of, joined_cost, IsCheaper};

/// An assignment costs the soft clauses of levels the sum over the levels of what it costs the level above the least
/// that it may cost, times the level's factor. Of two assignments the one that costs less is the one whose costs of
/// levels are less at the first difference. The weights add up to one less than the scale.
pub fn soft_clauses_cost_what_levels_cost()
    ensures sum { (levels : List Level) (A : Set)
        → pos (soft_cost (soft_of levels) A) ≡ joined_cost levels (costs_of levels A) }
    ensures order { (levels : List Level) (A B : Set)
        → (soft_cost (soft_of levels) A < soft_cost (soft_of levels) B)
        ↔ IsCheaper (costs_of levels A) (costs_of levels B) }
    ensures weights { (levels : List Level) → weights_of (soft_of levels) + 1 ≡ scale_of levels }
{}

/// The scale passes 63 bits at no level just where the whole scale has 63 bits, and otherwise at the first level from
/// the lowest priority on after which it has more.
pub fn scale_passes_where_it_first_has_more_bits()
    ensures fits { (levels : List Level) → (too_large_at levels ≡ None) ↔ (scale_of levels < 2 ^ 63) }
    ensures first { (levels : List Level) (priority : ℤ)
        → too_large_at levels ≡ Some priority → PassesAt levels priority }
{}

/// Levels over other literals have the same scale and offsets, and pass at the same priority.
pub fn scale_is_of_weights_alone()
    ensures scale { (f : Literal → Literal) (levels : List Level)
        → scale_of (map (renamed f) levels) ≡ scale_of levels }
    ensures offsets { (f : Literal → Literal) (levels : List Level)
        → offsets_of (map (renamed f) levels) ≡ offsets_of levels }
    ensures passes { (f : Literal → Literal) (levels : List Level)
        → too_large_at (map (renamed f) levels) ≡ too_large_at levels }
{}
