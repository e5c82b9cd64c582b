//! What is written is read back: laws, each the contract of a function that does nothing.

ghost use Rattle.std.specs.Prelude.{◌≡◌, ◌+◌, ◌<◌, ◌≤◌, ◌-◌, ◌^◌, [], length, Ok};
ghost use Rattle.std.specs.List.{AllByRecursion};
ghost use Rattle.clause_store.specs.Clauses.{Clauses};
ghost use Rattle.clause_store.specs.Facts.{Fits};
ghost use Rattle.clause_store.specs.Soft.{weights_of};
ghost use Rattle.dimacs_format.specs.Written.{cnf_text, ecnf_text, wcnf_text};
ghost use Rattle.dimacs_format.specs.Read.{formula_of, HasNodes};

/// The CNF text of a formula is read as that formula, where it has fewer than 2^63 clauses.
pub fn cnf_texts_are_read_back()
    ensures { (F : Clauses) → Fits F → F.edges ≡ [] → F.soft ≡ [] → F.top ≡ 1 → length F.hard < 2 ^ 63
        → formula_of (cnf_text F) ≡ Ok F }
{}

/// The ECNF text of a formula is read as that formula, where it has fewer than 2^63 clauses and edges, whose nodes are
/// of 32 bits.
pub fn ecnf_texts_are_read_back()
    ensures { (F : Clauses) → Fits F → F.soft ≡ [] → F.top ≡ 1 → AllByRecursion HasNodes F.edges
        → length F.hard < 2 ^ 63 → length F.edges < 2 ^ 63 → formula_of (ecnf_text F) ≡ Ok F }
{}

/// The WCNF text of a formula is read as that formula, where it has fewer than 2^63 clauses, and its top weight is
/// above the weights of all soft clauses together and below 2^63.
pub fn wcnf_texts_are_read_back()
    ensures { (F : Clauses) → Fits F → F.edges ≡ [] → weights_of F.soft < F.top → F.top ≤ 2 ^ 63 - 1
        → length F.hard + length F.soft < 2 ^ 63 → formula_of (wcnf_text F) ≡ Ok F }
{}
