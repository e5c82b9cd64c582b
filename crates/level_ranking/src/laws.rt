//! Laws of rankings, each the contract of a function that does nothing. The numbers of the components are a function of
//! the atoms, those of the cyclic ones a list.

ghost use Rattle.std.specs.Prelude.{ℕ, List, [], ◌≡◌};
ghost use Rattle.asp_base.specs.Sets.{members};
ghost use Rattle.rising_numbers.specs.Rising.{RisesFrom};
ghost use Rattle.ground_program.specs.Facts.{IsProgram};
ghost use Rattle.ground_program.specs.Ground.{Ground};
ghost use Rattle.ground_program.specs.Normal.{AreNormal};
ghost use Rattle.clause_store.specs.Stored.{formula_of_store};
ghost use Rattle.completion.specs.Completion.{completed};
ghost use Rattle.completion.specs.Supported.{HasStable};
ghost use Rattle.level_ranking.specs.Components.{AreParts};
ghost use Rattle.level_ranking.specs.Encoding.{with_rankings};
ghost use Rattle.level_ranking.specs.Ranked.{HasFounded, DigitsComeFirst, AddsFew, AddsByParts};

/// Cut to the atoms, the models of the completion with rankings are one to one the founded sets of the program, and in
/// each model the digits of the atoms of cyclic components are their ranks.
pub fn rankings_have_founded_models()
    ensures { (P : Ground) → IsProgram P → AreNormal P.rules → (part : ℕ → ℕ) → (parts : List ℕ)
        → AreParts P.rules P.atoms part (members parts)
        → HasFounded P part parts (formula_of_store (with_rankings P part parts) 1) }
{}

/// Without edges they are the stable models.
pub fn rankings_have_stable_models()
    ensures { (P : Ground) → IsProgram P → AreNormal P.rules → (part : ℕ → ℕ) → (parts : List ℕ)
        → AreParts P.rules P.atoms part (members parts) → P.edges ≡ []
        → HasStable P (formula_of_store (with_rankings P part parts) 1) }
{}

/// The digits of the atoms of cyclic components are the variables behind those of the completion, by ascending atoms.
pub fn digits_come_first()
    ensures { (P : Ground) → IsProgram P → (part : ℕ → ℕ) → (parts : List ℕ) → DigitsComeFirst P part parts }
{}

/// The rankings add few variables and clauses, and each variable stands in a clause.
pub fn rankings_are_small()
    ensures { (P : Ground) → IsProgram P → AreNormal P.rules → (part : ℕ → ℕ) → (parts : List ℕ) → RisesFrom 0 parts
        → AreParts P.rules P.atoms part (members parts) → AddsFew P (completed P) (with_rankings P part parts) }
{}

/// The variables that the rankings add, counted by components.
pub fn rankings_are_small_by_components()
    ensures { (P : Ground) → IsProgram P → AreNormal P.rules → (part : ℕ → ℕ) → (parts : List ℕ)
        → AreParts P.rules P.atoms part (members parts)
        → AddsByParts P part parts (completed P) (with_rankings P part parts) }
{}
