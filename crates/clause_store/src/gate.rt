//! The clauses of a gate: one for each row of its table, over the literals of its inputs and its output.

ghost use Rattle.std.specs.Prelude.{◌≡◌, ◌++◌, length, take, OnOk, OnErr};
ghost use Rattle.gate_tables.specs.Rows.{table_clauses};

use crate::clause_list::ClauseList;
use asp_base::{Lit, Memory};
use gate_tables::{Table, emit};

/// Adds the clauses of a table. After `Memory` some of them may stand behind the old ones.
pub(crate) fn push_gate<const K: usize, const C: usize>(
    hard: &mut ClauseList,
    table: &Table<K, C>,
    inputs: &[Lit; K],
    output: Lit,
) -> Result<(), Memory>
    ensures ok { OnOk result (hard.new ≡ hard.old ++ table_clauses table.now inputs.now output) }
    ensures err { OnErr result (take (length hard.old) hard.new ≡ hard.old) }
{
    emit!(hard, table, inputs, output);
    Ok(())
}
