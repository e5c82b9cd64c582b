//! The tables: and, or, exclusive or, if-then-else, and comparisons of numbers by one or two binary digits, from the
//! least digit upward. The rows of each but `ite` are all its prime implicates, so that unit propagation finds every
//! value that follows.

ghost use Rattle.std.specs.Prelude.{◌≡◌, Bool, not, cond, ◌&&◌, ◌||◌, [], ◌∷◌};
ghost use Rattle.gate_tables.specs.Rows.{table_value, differs};
ghost use Rattle.gate_tables.specs.Tables.{and2_rows, or2_rows, xor2_rows, ite_rows, lt_first_rows, lt_step_rows, lt_pair_rows, less_step, two_digits, is_below_or};

use crate::table::Table;

/// Both inputs.
pub fn and2() -> Table<2, 3>
    ensures rows { result ≡ and2_rows }
    ensures value { (x y : Bool) → table_value result (x ∷ y ∷ []) ≡ (x && y) }
{
    Table::of([([1, 0], -1), ([0, 1], -1), ([-1, -1], 1)])
}

/// One of the inputs.
pub fn or2() -> Table<2, 3>
    ensures rows { result ≡ or2_rows }
    ensures value { (x y : Bool) → table_value result (x ∷ y ∷ []) ≡ (x || y) }
{
    Table::of([([-1, 0], 1), ([0, -1], 1), ([1, 1], -1)])
}

/// Just one of the inputs.
pub fn xor2() -> Table<2, 4>
    ensures rows { result ≡ xor2_rows }
    ensures value { (x y : Bool) → table_value result (x ∷ y ∷ []) ≡ differs x y }
{
    Table::of([([-1, 1], 1), ([1, -1], 1), ([1, 1], -1), ([-1, -1], -1)])
}

/// The second input where the first is true, else the third.
pub fn ite() -> Table<3, 4>
    ensures rows { result ≡ ite_rows }
    ensures value { (s x y : Bool) → table_value result (s ∷ x ∷ y ∷ []) ≡ cond s x y }
{
    Table::of([
        ([-1, -1, 0], 1),
        ([-1, 1, 0], -1),
        ([1, 0, -1], 1),
        ([1, 0, 1], -1),
    ])
}

/// Digit x below digit y: not the first input, and the second.
pub fn lt_first() -> Table<2, 3>
    ensures rows { result ≡ lt_first_rows }
    ensures value { (x y : Bool) → table_value result (x ∷ y ∷ []) ≡ (not x && y) }
{
    Table::of([([-1, 0], -1), ([0, 1], -1), ([1, -1], 1)])
}

/// The second input where the first two differ, else the third.
pub fn lt_step() -> Table<3, 6>
    ensures rows { result ≡ lt_step_rows }
    ensures value { (x y c : Bool) → table_value result (x ∷ y ∷ c ∷ []) ≡ less_step x y c }
    // A digit over what is known of those below.
    ensures below { (x y c : Bool) → table_value result (x ∷ y ∷ c ∷ []) ≡ is_below_or (cond x 1 0) (cond y 1 0) c }
{
    Table::of([
        ([1, -1, 0], 1),
        ([1, 0, -1], 1),
        ([0, -1, -1], 1),
        ([-1, 1, 0], -1),
        ([-1, 0, 1], -1),
        ([0, 1, 1], -1),
    ])
}

/// Two digits of each number at once: the inputs are x1, x0, y1, y0 and c, and the output is that of `lt_step` for x1,
/// y1, and the output of `lt_step` for x0, y0 and c.
pub fn lt_pair() -> Table<5, 14>
    ensures rows { result ≡ lt_pair_rows }
    ensures value { (x1 x0 y1 y0 c : Bool) → table_value result (x1 ∷ x0 ∷ y1 ∷ y0 ∷ c ∷ [])
        ≡ less_step x1 y1 (less_step x0 y0 c) }
    // Two digits over what is known of those below.
    ensures below { (x1 x0 y1 y0 c : Bool) → table_value result (x1 ∷ x0 ∷ y1 ∷ y0 ∷ c ∷ [])
        ≡ is_below_or (two_digits x1 x0) (two_digits y1 y0) c }
{
    Table::of([
        ([1, 0, -1, 0, 0], 1),
        ([1, 1, 0, -1, 0], 1),
        ([1, 1, 0, 0, -1], 1),
        ([1, 0, 0, -1, -1], 1),
        ([0, 1, -1, -1, 0], 1),
        ([0, 1, -1, 0, -1], 1),
        ([0, 0, -1, -1, -1], 1),
        ([-1, 0, 1, 0, 0], -1),
        ([-1, -1, 0, 1, 0], -1),
        ([-1, -1, 0, 0, 1], -1),
        ([-1, 0, 0, 1, 1], -1),
        ([0, -1, 1, 1, 0], -1),
        ([0, -1, 1, 0, 1], -1),
        ([0, 0, 1, 1, 1], -1),
    ])
}
