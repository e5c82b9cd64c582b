//! Laws of maps, each the contract of a function that does nothing.

ghost use Rattle.std.specs.Prelude.{◌≡◌, ◌^◌, ◌<◌, ℕ, ℤ, List, length, map, Ok};
ghost use Rattle.std.specs.List.{AllByRecursion, filter};
ghost use Rattle.asp_base.specs.Sets.{members, Within};
ghost use Rattle.clause_store.specs.Clauses.{Clauses};
ghost use Rattle.clause_store.specs.declared.formula.SoftClause.{SoftClause};
ghost use Rattle.ground_program.specs.Faithful.{Covers, Faithful};
ghost use Rattle.ground_program.specs.Ground.{Ground};
ghost use Rattle.ground_program.specs.declared.program.Level.{Level};
ghost use Rattle.rising_numbers.specs.Rising.{RisesFrom};
ghost use Rattle.symbol_map.specs.CutMap.{KeepsAtoms, cut_map};
ghost use Rattle.symbol_map.specs.FaithfulMap.{CoversMap, FaithfulMap, JoinsCosts};
ghost use Rattle.symbol_map.specs.IsMap.{IsMap};
ghost use Rattle.symbol_map.specs.Read.{map_of};
ghost use Rattle.symbol_map.specs.Scale.{level_weights, joined_cost};
ghost use Rattle.symbol_map.specs.Symbols.{Symbols};
ghost use Rattle.symbol_map.specs.Written.{map_text};
ghost use Rattle.symbol_map.specs.declared.map.Form.TheVariants.{Wcnf};
ghost use Rattle.symbol_map.specs.declared.map.Place.{Place};

/// The text of a map is read as that map, where the lengths of names have 63 bits, as in memory.
pub fn maps_are_read_back()
    ensures { (m : Symbols) → IsMap m → AllByRecursion (λ show. length show.name < 2 ^ 63) m.shows
        → map_of (map_text m) ≡ Ok m }
{}

/// Where a program Q stands for P, and has P's atoms and maybe more, a formula and a map that stand for Q stand for P,
/// through the places of P's atoms.
///
/// The costs of soft clauses are joined by the factors of the program, so where there are any, the levels of P and Q
/// have to join costs alike. Nothing is asked of them in the other forms, and where Q has the levels of P, or their
/// weights on other literals, they do (`joined_costs_are_of_weights_alone`).
pub fn faithful_maps_compose()
    ensures covers { (P Q : Ground) (F : Clauses) (m : Symbols) → KeepsAtoms P Q
        → Covers P Q → CoversMap Q F m → CoversMap P F (cut_map P.atoms m) }
    ensures faithful { (P Q : Ground) (F : Clauses) (m : Symbols) → KeepsAtoms P Q
        → (m.form ≡ Wcnf → (costs : List ℤ) → joined_cost Q.levels costs ≡ joined_cost P.levels costs)
        → Faithful P Q → FaithfulMap Q F m → FaithfulMap P F (cut_map P.atoms m) }
{}

/// Levels with the same weights join costs alike, whatever their literals and priorities are.
pub fn joined_costs_are_of_weights_alone()
    ensures { (xs ys : List Level) (costs : List ℤ) → level_weights xs ≡ level_weights ys
        → joined_cost xs costs ≡ joined_cost ys costs }
{}

/// Of places made for the atoms of a list by a function, those of some of the atoms are what the function makes for
/// these. Both lists rise.
pub fn cut_map_has_places_of_its_atoms()
    ensures { (place : ℕ → Place) (xs ys : List ℕ) → ((a : ℕ) → (place a).atom ≡ a)
        → RisesFrom 0 xs → RisesFrom 0 ys → Within (members xs) (members ys)
        → filter (λ p. members xs p.atom) (map place ys) ≡ map place xs }
{}

/// Soft clauses that have the costs of the levels may be added to a formula that stands for a program.
pub fn soft_clauses_keep_formula_faithful()
    ensures { (P : Ground) (F : Clauses) (m : Symbols) (soft : List SoftClause) (top : ℕ) → FaithfulMap P F m
        → JoinsCosts P (record F { soft = soft; top = top }) (record m { form = Wcnf })
        → FaithfulMap P (record F { soft = soft; top = top }) (record m { form = Wcnf }) }
{}
