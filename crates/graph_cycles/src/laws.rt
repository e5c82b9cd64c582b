//! What a cycle means: a law, the contract of a function that does nothing.
ghost use Rattle.std.specs.Prelude.{ℤ, Bool, List};
ghost use Rattle.asp_base.specs.Walks.{Acyclic};
ghost use Rattle.graph_cycles.specs.Cycle.{IsCycle};

/// A graph with a cycle is not acyclic.
pub fn cycles_are_walks_back()
    ensures { (step : ℤ → ℤ → Bool) (walk : List ℤ) → IsCycle step walk → Acyclic step → ⊥ }
{}
