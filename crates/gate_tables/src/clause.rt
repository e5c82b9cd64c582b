//! The clauses that the rows of a table stand for, over literals for the inputs and the output.

ghost use Rattle.std.specs.Prelude.{◌≡◌, ◌++◌, length, IfOk, OnOk};
ghost use Rattle.gate_tables.specs.Rows.{entry_literals, entries_literals, row_clause};

use asp_base::{Lit, Memory};
use smallvec::SmallVec;
use std::alloc::Global;

/// Adds the literal that an entry stands for.
fn push_entry(clause: &mut SmallVec<Lit, 8>, entry: i8, lit: Lit) -> Result<(), Memory>
    ensures { OnOk result (clause.new.items ≡ clause.old.items ++ entry_literals entry lit) }
{
    if entry > 0 {
        clause.push(lit)?;
    } else if entry < 0 {
        clause.push(lit.negate())?;
    }
    Ok(())
}

/// Adds the literals that the entries stand for.
fn push_entries(clause: &mut SmallVec<Lit, 8>, entries: &[i8], lits: &[Lit]) -> Result<(), Memory>
    requires { length entries.now ≡ length lits.now }
    ensures { OnOk result (clause.new.items ≡ clause.old.items ++ entries_literals entries.now lits.now) }
{
    for i in 0..entries.len() {
        push_entry(clause, entries[i], lits[i])?;
    }
    Ok(())
}

/// The clause of a row of a table over these literals for the inputs and the output.
pub fn clause_of_row<const K: usize>(
    alloc: Global,
    row: &([i8; K], i8),
    inputs: &[Lit; K],
    output: Lit,
) -> Result<SmallVec<Lit, 8>, Memory>
    ensures { IfOk result (λ clause. clause.items ≡ row_clause row.now inputs.now output) }
{
    let mut clause = SmallVec::new(alloc);
    push_entries(&mut clause, &row.0, inputs)?;
    push_entry(&mut clause, row.1, output)?;
    Ok(clause)
}
