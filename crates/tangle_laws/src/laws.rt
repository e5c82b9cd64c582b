//! What is said of programs that are made piece by piece: a law, the contract of a function that does nothing.
ghost use Rattle.std.specs.Prelude.{ℕ, ◌≤◌, List};
ghost use Rattle.ground_program.specs.Tangle.{AreCyclicComponents, pairs, tangle};
ghost use Rattle.ground_program.specs.declared.program.Rule.{Rule};
ghost use Rattle.tangle_laws.specs.Pieces.{ArePieces, AreApart, Piece, made_rules};

/// Where pieces stand for the rules of a program, the rules that they make have no more positive recursion than the
/// program's tangle allows.
pub fn pairs_are_within_the_tangle()
    ensures { (rules : List Rule) (pieces : List Piece) (made parts : List (List ℕ)) → ArePieces rules pieces
        → AreApart rules pieces → AreCyclicComponents (made_rules pieces) made → AreCyclicComponents rules parts
        → pairs (made_rules pieces) made ≤ tangle rules parts }
{}
