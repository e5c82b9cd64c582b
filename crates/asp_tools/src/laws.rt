//! The laws of the tools, each the contract of a function that does nothing.

ghost use Rattle.std.specs.Prelude.{◌≡◌, ℕ, List};
ghost use Rattle.std.specs.List.{filter};
ghost use Rattle.asp_base.specs.Sets.{members, cut, Same};
ghost use Rattle.ground_program.specs.Facts.{IsProgram};
ghost use Rattle.ground_program.specs.Faithful.{Faithful};
ghost use Rattle.ground_program.specs.Ground.{Ground};
ghost use Rattle.ground_program.specs.Stable.{Stable, visible, cost};
ghost use Rattle.clause_store.specs.Clauses.{Clauses};
ghost use Rattle.symbol_map.specs.FaithfulMap.{CoversMap};
ghost use Rattle.symbol_map.specs.Restrict.{restrict};
ghost use Rattle.symbol_map.specs.Symbols.{Symbols};
ghost use Rattle.back_map.specs.Read.{Answered};
ghost use Rattle.asp_tools.specs.BackAnswers.{Judges, values_of};
ghost use Rattle.asp_tools.specs.CheckAnswers.{Checks};
ghost use Rattle.asp_tools.specs.Sayings.{accepted_text};
ghost use Rattle.asp_tools.specs.declared.answer.Answer.TheVariants as answers;

/// Where a formula with its map stands for a program, as those that `lp2sat` and `lp2acyc` write do, an answer that
/// `back` accepts is a model of the formula; the atoms that it makes true are then a stable model of the program, and
/// what is said is that model's names and cost.
pub fn accepted_answers_are_stable_models()
    ensures stable { (P : Ground) (F : Clauses) (m : Symbols) (x : Answered) (said : List ℕ)
        → CoversMap P F m → Judges F m x answers.Done said
        → Stable P (restrict m (values_of x)) }
    ensures said { (P : Ground) (F : Clauses) (m : Symbols) (x : Answered) (said : List ℕ)
        → CoversMap P F m → Judges F m x answers.Done said
        → said ≡ accepted_text (visible P (restrict m (values_of x)))
        (cost P (restrict m (values_of x))) }
{}

/// Where a program stands for another one, as those that `lp2normal` and `lp2acyc` write do, what `check` says of a
/// stable model of it is what it says of the atoms of the other one in it; and each stable model of the other one comes
/// so from one.
pub fn checks_agree_on_normal_programs()
    ensures cut { (P N : Ground) (atoms said : List ℕ) → Faithful P N → Checks N atoms answers.Done said
        → Checks P (filter (members P.atoms) atoms) answers.Done said }
    ensures onto { (P N : Ground) (atoms said : List ℕ) → IsProgram N → Faithful P N
        → Checks P atoms answers.Done said
        → (more : List ℕ) × Checks N more answers.Done said × Same (cut P.atoms (members more)) (members atoms) }
{}
