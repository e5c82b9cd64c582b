//! Laws of blocks, each the contract of a function that does nothing.

ghost use Rattle.std.specs.Prelude.{◌≡◌, ℕ, true, false, List};
ghost use Rattle.std.specs.List.{list_any, list_all, AllByRecursion};
ghost use Rattle.asp_base.specs.Literal.{Literal, Pos};
ghost use Rattle.asp_base.specs.Sets.{Set, members, Same};
ghost use Rattle.ground_program.specs.Stable.{step, grown};
ghost use Rattle.rule_network.specs.Block.{Block, IsBlock, Known, AllKnown, ReadsInputs, Grew, next_atom, with_cell, closure, value};

/// From a set without the block's atoms, the closure is what the rules derive from it. Outside the block it is the set
/// itself, and an atom of the block is in it exactly where a rule derives it from the closure at once.
pub fn closure_is_what_rules_derive()
    ensures begins { (net : Block) (X M : Set) → ((a : ℕ) → members net.made a ≡ true → X a ≡ false)
        → Same (closure net X M) (grown net.rules M X) }
    ensures outside { (net : Block) (X M : Set) (a : ℕ) → IsBlock net → members net.made a ≡ false
        → closure net X M a ≡ X a }
    ensures made { (net : Block) (X M : Set) (a : ℕ) → IsBlock net → members net.made a ≡ true
        → closure net X M a ≡ step net.rules M (closure net X M) a }
{}

/// A new atom with its rules leaves what was there as it is, and holds where one of its bodies does.
pub fn new_atom_holds_where_a_body_does()
    ensures grew { (net : Block) (bodies : List (List Literal)) → IsBlock net → AllByRecursion (AllKnown net) bodies
        → Grew net (with_cell bodies net) }
    ensures holds { (net : Block) (bodies : List (List Literal)) → IsBlock net → AllByRecursion (AllKnown net) bodies
        → (X M : Set) → value (with_cell bodies net) X M (Pos (next_atom net))
        ≡ list_any (λ body. list_all (value net X M) body) bodies }
    ensures kept { (old new : Block) → Grew old new → (X M : Set) (l : Literal) → Known old l
        → value new X M l ≡ value old X M l }
    ensures joined { (one two three : Block) → Grew one two → Grew two three → Grew one three }
{}

/// A rule of a block is for atoms of the block, and these depend positively on atoms of the block below them and on
/// inputs alone.
pub fn rules_depend_on_inputs()
    ensures reads { (net : Block) → IsBlock net → AllByRecursion (ReadsInputs net) net.rules }
{}
