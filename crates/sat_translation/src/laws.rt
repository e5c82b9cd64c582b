//! Laws of the translation, each the contract of a function that does nothing.

ghost use Rattle.std.specs.Prelude.{◌≡◌, []};
ghost use Rattle.ground_program.specs.Facts.{IsProgram};
ghost use Rattle.ground_program.specs.Ground.{Ground};
ghost use Rattle.ground_program.specs.Negative.{HasNegativeBodies};
ghost use Rattle.ground_program.specs.Normal.{AreNormal};
ghost use Rattle.clause_store.specs.Clauses.{Clauses};
ghost use Rattle.completion.specs.Completion.{completion};
ghost use Rattle.completion.specs.Supported.{HasStable};
ghost use Rattle.symbol_map.specs.FaithfulMap.{FaithfulMap};
ghost use Rattle.sat_translation.specs.InputMap.{input_map};

/// A formula whose models, cut to the variables of a program's atoms, are one to one its stable models stands for the
/// program, through the map of all of its atoms: with the names that they show and what they cost.
pub fn formulas_over_atoms_are_faithful()
    ensures { (P : Ground) → (F : Clauses) → HasStable P F → FaithfulMap P F (input_map P P.atoms F.vars) }
{}

/// Where heads are one atom or none, bodies have negative literals only and there are no edges, the completion is such
/// a formula.
pub fn completion_and_map_are_faithful()
    ensures { (P : Ground) → IsProgram P → AreNormal P.rules → HasNegativeBodies P.rules → P.edges ≡ []
        → FaithfulMap P (completion P) (input_map P P.atoms (completion P).vars) }
{}
