//! Tables of clauses that define a gate: for each list of inputs just one output makes all clauses true. The type keeps
//! this, and it is shown for a constant table by computing over all inputs, so what rests on it is proved once for all
//! tables (G. S. Tseitin, On the complexity of derivation in propositional calculus, 1968).

ghost use Rattle.std.specs.Prelude.{◌≡◌, ◌<◌, ◌≤◌, ◌+◌, ◌-◌, ℕ, ℤ, List, length, drop, Bool, true, slice_get, Some};
ghost use Rattle.gate_tables.specs.Rows.{entry_true, entries_true, row_true, rows_true, table_value, IsTable};

use std::marker::Model;

/// The clauses that define a gate of `K` inputs, one in each of `C` rows. A row has an entry for each input and one for
/// the output: 1 for the variable itself, -1 for its negation, 0 for neither, which the output's is not. For each list
/// of values of the inputs just one value of the output makes all clauses true.
#[derive(Drop)]
pub struct Table<const K: usize, const C: usize> {
    rows: [([i8; K], i8); C],
}

impl<const K: usize, const C: usize> Model for Table<K, C> {
    ghost use Rattle.std.specs.Prelude.{ℤ, List};
    ghost use Rattle.gate_tables.specs.Rows.{IsTable};

    ghost Value = { List (List ℤ × ℤ) };

    ghost view = { λ t. t.rows };

    ghost invariant = { λ t. IsTable K t.rows };
}

/// Whether the literal of an entry is true.
fn is_entry_true(entry: i8, value: bool) -> bool
    ensures { result ≡ entry_true entry value }
{
    if entry > 0 {
        value
    } else if entry < 0 {
        !value
    } else {
        false
    }
}

/// Whether one of the literals of the entries is true.
fn are_entries_true(entries: &[i8], values: &[bool]) -> bool
    requires { length entries.now ≡ length values.now }
    ensures { result ≡ entries_true entries.now values.now }
{
    for i in 0..entries.len() {
        if is_entry_true(entries[i], values[i]) {
            return true;
        }
    }
    false
}

/// Whether the clauses of all rows are true where the output is.
fn are_rows_true<const K: usize>(rows: &[([i8; K], i8)], values: &[bool; K]) -> bool
    ensures { result ≡ rows_true rows.now values.now true }
{
    for row in rows {
        if !are_entries_true(&row.0, values) && !is_entry_true(row.1, true) {
            return false;
        }
    }
    true
}

impl<const K: usize, const C: usize> Table<K, C> {
    /// A table of these rows.
    pub(crate) fn of(rows: [([i8; K], i8); C]) -> Table<K, C>
        requires { IsTable K rows }
        ensures { result ≡ rows.entry }
    {
        Table { rows }
    }

    /// The one output that the inputs have.
    pub fn value(&self, inputs: [bool; K]) -> bool
        ensures is { result ≡ table_value self.now inputs.entry }
        ensures taken { rows_true self.now inputs.entry result ≡ true }
        ensures only { (output : Bool) → rows_true self.now inputs.entry output ≡ true → output ≡ result }
    {
        are_rows_true(&self.rows, &inputs)
    }

    /// What every table is known to keep.
    pub fn known(&self)
        ensures table { IsTable K self.now }
        ensures count { length self.now ≡ C }
    {
        let _ = &self.rows;
    }

    /// The rows, in order.
    pub fn rows(&self) -> &[([i8; K], i8)]
        ensures { result.now ≡ self.now }
    {
        &self.rows
    }

    /// The entries of the i-th row for the inputs, and its entry for the output, with i from 1.
    pub fn row(&self, i: u64) -> ([i8; K], i8)
        requires above { 0 < i }
        requires within { i ≤ C }
        ensures { slice_get self.now (i - 1) ≡ Some result }
    {
        self.rows[i as usize - 1]
    }
}
