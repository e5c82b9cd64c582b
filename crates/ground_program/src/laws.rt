//! Laws of stable models, each the contract of a function that does nothing.

ghost use Rattle.std.specs.Prelude.{◌≡◌, ◌↔◌, ℕ, ◌+◌, ◌*◌, ◌/◌, ◌<◌, ◌≤◌, true, false, List, [], ◌++◌, length};
ghost use Rattle.std.specs.List.{list_any};
ghost use Rattle.asp_base.specs.Literal.{Literal, all_hold};
ghost use Rattle.asp_base.specs.Sets.{Set, members, Same, Within};
ghost use Rattle.asp_base.specs.Walks.{Acyclic};
ghost use Rattle.ground_program.specs.Broken.{breaks};
ghost use Rattle.ground_program.specs.Closed.{Closed, Weighed};
ghost use Rattle.ground_program.specs.Facts.{IsProgram};
ghost use Rattle.ground_program.specs.Faithful.{Covers, Faithful};
ghost use Rattle.ground_program.specs.Fresh.{IsLeastFree, given_by, new_atom};
ghost use Rattle.ground_program.specs.Ground.{Ground};
ghost use Rattle.ground_program.specs.Negative.{HasNegativeBodies};
ghost use Rattle.ground_program.specs.Radix.{rest_sum, best_radix, tare_of};
ghost use Rattle.ground_program.specs.Stable.{joined, least, step, Stable, Supported};

/// The least model of the reduct by a set is the intersection of the sets that are closed under the
/// rules of the reduct: it is closed itself, and lies within each closed set. It is a fixpoint of the
/// one-step operator: what the rules derive from it at once is the least model again. The premise is
/// that no body weight is negative, which is so in every program.
pub fn least_model_is_least_closed_set()
    ensures closed { (P : Ground) (M : Set) → Weighed P.rules → Closed P.rules M (least P M) }
    ensures smallest { (P : Ground) (M X : Set) → Weighed P.rules → Closed P.rules M X → Within (least P M) X }
    ensures fixpoint { (P : Ground) (M : Set) → Weighed P.rules → Same (step P.rules M (least P M)) (least P M) }
    ensures premise { (P : Ground) → IsProgram P → Weighed P.rules }
{}

/// A stable model has no atom that the program does not have.
pub fn stable_model_has_atoms_of_program()
    ensures { (P : Ground) (M : Set) → IsProgram P → Stable P M → Within M (members P.atoms) }
{}

/// A stable model is supported, that is, a model of the completion. Where no body has a positive literal and there are
/// no edges, a set is a stable model exactly if it is supported.
pub fn stable_models_are_supported()
    ensures supported { (P : Ground) (M : Set) → IsProgram P → Stable P M → Supported P M }
    ensures same { (P : Ground) (M : Set) → HasNegativeBodies P.rules → P.edges ≡ [] → Stable P M ↔ Supported P M }
{}

/// A set breaks a rule where the body holds in it and the head asks for what it does not have. The least model of the
/// reduct by a set that breaks no rule lies within the set. Where the set lies within the least model too, has the
/// required literals and gives a graph without cycle, it is a stable model. A stable model breaks no rule.
pub fn stable_if_nothing_is_broken()
    ensures within { (P : Ground) (M : Set) → IsProgram P → list_any (λ rule. breaks rule M) P.rules ≡ false
        → Within (least P M) M }
    ensures stable { (P : Ground) (M : Set) → IsProgram P → list_any (λ rule. breaks rule M) P.rules ≡ false
        → Within M (least P M) → all_hold P.required M M ≡ true → Acyclic (joined P.edges M) → Stable P M }
    ensures unbroken { (P : Ground) (M : Set) → IsProgram P → Stable P M
        → list_any (λ rule. breaks rule M) P.rules ≡ false }
{}

/// Where a second program stands for a first one and a third one for the second, the third one stands for the first.
pub fn faithful_programs_compose()
    ensures covers { (P N Q : Ground) → Within (members P.atoms) (members N.atoms)
        → Covers P N → Covers N Q → Covers P Q }
    ensures faithful { (P N Q : Ground) → Within (members P.atoms) (members N.atoms)
        → Faithful P N → Faithful N Q → Faithful P Q }
{}

/// Each new atom is the least positive number that is no atom and was not given before. So new atoms rise, none is an
/// atom, and none is above the number of the atoms and of the new atoms up to it.
pub fn new_atoms_are_new()
    ensures least { (atoms : List ℕ) (n : ℕ) → IsLeastFree (given_by n atoms ++ atoms) (new_atom atoms n) }
    ensures rise { (atoms : List ℕ) (i j : ℕ) → i < j → new_atom atoms i < new_atom atoms j }
    ensures new { (atoms : List ℕ) (n : ℕ) → members atoms (new_atom atoms n) ≡ false }
    ensures most { (atoms : List ℕ) (n : ℕ) → new_atom atoms n ≤ length atoms + n + 1 }
{}

/// The radix of a level is the number from 2 to 8 with which the weights leave least over together, on a tie the
/// largest; the tare is the least number that makes it divide the bound.
pub fn radix_leaves_least_over()
    ensures range { (items : List (Literal × ℕ)) → (2 ≤ best_radix items) × (best_radix items ≤ 8) }
    ensures least { (items : List (Literal × ℕ)) (c : ℕ) → 2 ≤ c → c ≤ 8
        → rest_sum (best_radix items) items ≤ rest_sum c items }
    ensures largest { (items : List (Literal × ℕ)) (c : ℕ) → best_radix items < c → c ≤ 8
        → rest_sum (best_radix items) items < rest_sum c items }
    ensures tare { (bound b : ℕ) → 0 < b → (tare_of bound b < b)
        × (b * ((bound + tare_of bound b) / b) ≡ bound + tare_of bound b) }
{}
