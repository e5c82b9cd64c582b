//! What a cyclic component is: a law, the contract of a function that does nothing.

ghost use Rattle.std.specs.Prelude.{◌≡◌, ◌≢◌, ℕ, ◌⊎◌, ◌↔◌, Bool, true, List};
ghost use Rattle.asp_base.specs.Sets.{members};
ghost use Rattle.graph_parts.specs.Divided.{is_cyclic_at};
ghost use Rattle.ground_program.specs.Dependencies.{depends};
ghost use Rattle.ground_program.specs.Facts.{IsProgram};
ghost use Rattle.ground_program.specs.Ground.{Ground};
ghost use Rattle.components.specs.Components.{AreComponents, number_of};

/// A component is cyclic where it has two or more atoms, or an atom that stands positive in the body of a rule of its
/// own.
pub fn cyclic_components_are_large_or_loop()
    ensures { (P : Ground) (numbers : List ℕ) (count : ℕ) (cyclic : List Bool)
        → IsProgram P → AreComponents P numbers count cyclic → (a : ℕ) → members P.atoms a ≡ true
        → (is_cyclic_at cyclic (number_of P.atoms numbers a) ≡ true)
        ↔ (((b : ℕ) × (members P.atoms b ≡ true) × (b ≢ a)
        × (number_of P.atoms numbers b ≡ number_of P.atoms numbers a))
        ⊎ (depends P.rules a a ≡ true)) }
{}
