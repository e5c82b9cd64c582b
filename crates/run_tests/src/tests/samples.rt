//! Programs, texts and words that several tests take.

/// The words of a translation to a formula and a map.
pub(crate) const SAT: &[&str] = &["lp2sat", "in", "out", "map"];

/// The words of a translation to a normal program.
pub(crate) const ASPIF: &[&str] = &["lp2normal", "in", "out"];

/// `a :- not b. b :- not a.`
pub(crate) const CHOICE: &str = "asp 1 0 0\n1 0 1 1 0 1 -2\n1 0 1 2 0 1 -1\n0\n";

pub(crate) const CHOICE_FORMULA: &str = "p cnf 2 4\n-1 -2 0\n1 2 0\n-2 -1 0\n2 1 0\n";

pub(crate) const CHOICE_MAP: &str = "map 1 cnf 2\natom 1 1\natom 2 2\nend\n";

/// The same program with names for both atoms.
pub(crate) const SHOWN: &str =
    "asp 1 0 0\n1 0 1 1 0 1 -2\n1 0 1 2 0 1 -1\n4 1 a 1 1\n4 1 b 1 2\n0\n";

pub(crate) const SHOWN_MAP: &str =
    "map 1 cnf 2\natom 1 1\natom 2 2\nshow 1 a 1 1\nshow 1 b 1 2\nend\n";

/// Five clauses over three variables, and a map without atoms.
pub(crate) const CLAUSES: &str = "p cnf 3 5\n1 2 0\n-1 3 0\n2 -3 0\n3 2 0\n-1 2 0\n";

pub(crate) const NO_ATOMS: &str = "map 1 cnf 3\nend\n";

/// `{c}. a :- c. a :- b. b :- a.` with names.
pub(crate) const LOOPS: &str =
    "asp 1 0 0\n1 1 1 3 0 0\n1 0 1 1 0 1 3\n1 0 1 1 0 1 2\n1 0 1 2 0 1 1\n4 1 a 1 1\n4 1 b 1 2\n4 1 c 1 3\n0\n";

/// `a :- a.`
pub(crate) const CIRCLE: &str = "asp 1 0 0\n1 0 1 1 0 1 1\n0\n";

/// A ring of four atoms, which a choice may begin.
pub(crate) const RING: &str =
    "asp 1 0 0\n1 1 1 5 0 0\n1 0 1 1 0 1 5\n1 0 1 1 0 1 4\n1 0 1 2 0 1 1\n1 0 1 3 0 1 2\n1 0 1 4 0 1 3\n0\n";

/// A choice of 1, 2, 3, and 4 where the weights 6, 10 and 15 of these reach 16.
pub(crate) const WEIGHTS: &str = "asp 1 0 0\n1 1 3 1 2 3 0 0\n1 0 1 4 1 16 3 1 6 2 10 3 15\n0\n";

/// A literal that stands twice, its complement, and a weight of 0.
pub(crate) const REPEATED: &str =
    "asp 1 0 0\n1 1 3 1 2 3 0 0\n1 0 1 4 1 3 5 1 2 1 1 -1 2 2 1 3 0\n0\n";

/// A choice of 1, 2, 3, and 4 where two of them are true, as smodels text.
pub(crate) const COUNTS: &str =
    "3 3 1 2 3 0 0\n2 4 3 0 2 1 2 3\n0\n1 a\n2 b\n3 c\n4 d\n0\nB+\n0\nB-\n0\n1\n";

/// The same by rules without weights and choices.
pub(crate) const COUNTED: &str =
    "asp 1 0 0\n1 0 1 1 0 1 -5\n1 0 1 5 0 1 -1\n1 0 1 2 0 1 -6\n1 0 1 6 0 1 -2\n1 0 1 3 0 1 -7\n\
     1 0 1 7 0 1 -3\n1 0 1 8 0 1 1\n1 0 1 9 0 1 8\n1 0 1 9 0 1 2\n1 0 1 10 0 2 8 2\n\
     1 0 1 11 0 1 10\n1 0 1 11 0 2 9 3\n1 0 1 4 0 1 11\n4 1 a 1 1\n4 1 b 1 2\n4 1 c 1 3\n\
     4 1 d 1 4\n0\n";

/// Two choices, and an edge each way under them.
pub(crate) const EDGES: &str = "asp 1 0 0\n1 1 2 1 2 0 0\n8 5 6 1 1\n8 6 5 1 2\n0\n";

/// A colouring with links and reachability, as a grounder writes it.
pub(crate) const COLOURING: &str =
    "asp 1 0 0\n1 1 2 1 2 0 0\n1 1 2 3 4 0 0\n1 1 2 5 6 0 0\n1 0 0 1 2 2 1 1 2 1\n\
     1 0 0 1 2 2 3 1 4 1\n1 0 0 1 2 2 5 1 6 1\n1 0 0 0 2 -1 -2\n1 0 0 0 2 -3 -4\n1 0 0 0 2 -5 -6\n\
     1 0 0 0 2 1 3\n1 0 0 0 2 2 4\n1 0 0 0 2 3 5\n1 0 0 0 2 4 6\n1 1 3 7 8 9 0 0\n1 0 1 10 0 1 7\n\
     1 0 1 10 0 2 11 9\n1 0 1 11 0 2 10 8\n1 0 0 0 1 -10\n1 0 0 0 1 -11\n2 0 3 7 1 8 2 9 1\n\
     4 7 node(1) 0\n4 8 col(1,r) 1 1\n4 8 col(1,g) 1 2\n4 8 col(2,r) 1 3\n4 8 col(2,g) 1 4\n\
     4 8 col(3,r) 1 5\n4 8 col(3,g) 1 6\n4 9 link(1,2) 1 7\n4 9 link(2,3) 1 8\n4 9 link(3,2) 1 9\n\
     4 8 reach(2) 1 10\n4 8 reach(3) 1 11\n0\n";
