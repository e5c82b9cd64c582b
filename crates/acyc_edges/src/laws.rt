//! Laws of the encodings, each the contract of a function that does nothing.

ghost use Rattle.std.specs.Prelude.{◌≡◌, ◌≤◌, ◌+◌, ◌*◌, ◌^◌, ℕ, List, length, map};
ghost use Rattle.std.specs.List.{filter, flat_map};
ghost use Rattle.asp_base.specs.Walks.{Acyclic};
ghost use Rattle.ground_program.specs.Facts.{IsProgram};
ghost use Rattle.rising_numbers.specs.Rising.{RisesFrom};
ghost use Rattle.ground_program.specs.Faithful.{Faithful};
ghost use Rattle.ground_program.specs.Fresh.{given_by};
ghost use Rattle.ground_program.specs.Ground.{Ground};
ghost use Rattle.ground_program.specs.Size.{size};
ghost use Rattle.ground_program.specs.Tangle as tangle;
ghost use Rattle.components.specs.Divided.{Divided, cyclic_parts};
ghost use Rattle.components.specs.Parts.{ArePartsOf};
ghost use Rattle.ground_program.specs.Dependencies.{depends};
ghost use Rattle.acyc_edges.specs.Encoding.{plain_names, unique_names, plain, unique};
ghost use Rattle.acyc_edges.specs.Names.{is_new, atom_of_name};
ghost use Rattle.ground_program.specs.Normal.{AreNormal};
ghost use Rattle.acyc_edges.specs.private.Pairs.{pairs};
ghost use Rattle.acyc_edges.specs.private.Parts.{AreParts};

/// The stable models of the program that compares stages, cut to the atoms of the given program, are one to one its
/// stable models, with their names and costs. The made program is normal, and no atom of it depends positively on
/// itself.
pub fn compared_stages_are_faithful()
    ensures faithful { (P : Ground) (part : ℕ → ℕ) (parts : List ℕ) → IsProgram P → AreNormal P.rules
        → AreParts P.rules part parts → Faithful P (unique P part parts) }
    ensures tight { (P : Ground) (part : ℕ → ℕ) (parts : List ℕ) → IsProgram P → AreNormal P.rules
        → AreParts P.rules part parts → Acyclic (depends (unique P part parts).rules) }
    ensures normal { (P : Ground) (part : ℕ → ℕ) (parts : List ℕ) → IsProgram P → AreNormal P.rules
        → AreNormal (unique P part parts).rules }
{}

/// The program with chosen edges has at most twelve times the size of the given one. The program that compares stages
/// has at most eight times the size with the pairs.
pub fn encodings_are_small()
    ensures plain { (P : Ground) (part : ℕ → ℕ) (parts : List ℕ) → IsProgram P → AreNormal P.rules
        → RisesFrom 0 parts → size (plain P part parts) ≤ 12 * size P }
    ensures unique { (P : Ground) (part : ℕ → ℕ) (parts : List ℕ) → IsProgram P → AreNormal P.rules
        → RisesFrom 0 parts → size (unique P part parts) ≤ 8 * (pairs P part parts + size P) }
{}

/// What is made of a program of at most 2^24 entries is a program, with compared stages where there are at most 2^24
/// pairs.
pub fn encodings_are_programs()
    ensures plain { (P : Ground) (part : ℕ → ℕ) (parts : List ℕ) → IsProgram P → AreNormal P.rules
        → RisesFrom 0 parts → size P ≤ 2 ^ 24 → IsProgram (plain P part parts) }
    ensures unique { (P : Ground) (part : ℕ → ℕ) (parts : List ℕ) → IsProgram P → AreNormal P.rules
        → RisesFrom 0 parts → size P ≤ 2 ^ 24 → pairs P part parts ≤ 2 ^ 24 → IsProgram (unique P part parts) }
{}

/// No name stands twice, so the new names get the new atoms in order.
pub fn names_get_new_atoms_in_order()
    ensures plain { (P : Ground) (part : ℕ → ℕ) (parts : List ℕ) → IsProgram P → AreNormal P.rules
        → RisesFrom 0 parts → given_by (length (filter is_new (flat_map (plain_names P part parts) parts))) P.atoms
        ≡ map (atom_of_name P.atoms (flat_map (plain_names P part parts) parts)) (filter is_new (flat_map
        (plain_names P part parts) parts)) }
    ensures unique { (P : Ground) (part : ℕ → ℕ) (parts : List ℕ) → IsProgram P → AreNormal P.rules
        → RisesFrom 0 parts
        → given_by (length (filter is_new (flat_map (unique_names P part parts) parts))) P.atoms
        ≡ map (atom_of_name P.atoms (flat_map (unique_names P part parts) parts)) (filter is_new (flat_map
        (unique_names P part parts) parts)) }
{}

/// There are at most as many pairs as the square of the size, so a program of at most 4096 entries has at most 2^24.
pub fn pairs_are_at_most_the_square_of_the_size()
    ensures { (P : Ground) (d : Divided) → IsProgram P → AreNormal P.rules → ArePartsOf P d
        → tangle.pairs P.rules (cyclic_parts d) ≤ size P * size P }
{}
