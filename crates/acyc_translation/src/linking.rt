//! Edges under literals: each edge of a program gets a literal that is true just where its condition holds.

ghost use Rattle.std.specs.Prelude.{◌≡◌, ◌≤◌, ◌<◌, ◌+◌, ◌-◌, ◌^◌, [], length, OnOk, IfOk};
ghost use Rattle.std.specs.List.{AllByRecursion};
ghost use Rattle.clause_store.specs.Extension.{StandsForAll};
ghost use Rattle.clause_store.specs.Stored.{after_conjunction};
ghost use Rattle.ground_program.specs.Facts.{Among, LiteralsFit};
ghost use Rattle.sat_translation.specs.InputMap.{literals_over};
ghost use Rattle.acyc_translation.specs.private.Linked.{Linked, LinksOne};

use asp_base::{Lit, Memory};
use clause_store::Store;
use ground_program::{Atoms, Edge};
use sat_translation::literals_over;
use std::alloc::Global;

/// Adds the edges of a program over the variables of its atoms to a store that has none.
pub(crate) fn add_edges(
    alloc: Global,
    atoms: &Atoms,
    edges: &[Edge],
    store: &mut Store,
) -> Result<(), Memory>
    requires fit { AllByRecursion (λ edge. LiteralsFit (Among atoms.now) edge.condition) edges.now }
    requires up { length atoms.now ≤ store.old.vars }
    requires room { store.old.vars + length edges.now < 2 ^ 31 - 1 }
    requires none { store.old.edges ≡ [] }
    ensures { OnOk result (Linked atoms.now edges.now store.old store.new) }
{
    for edge in edges {
        add_edge(alloc, atoms, edge, store)?;
    }
    Ok(())
}

/// Adds an edge.
fn add_edge(alloc: Global, atoms: &Atoms, edge: &Edge, store: &mut Store) -> Result<(), Memory>
    requires fit { LiteralsFit (Among atoms.now) edge.now.condition }
    requires up { length atoms.now ≤ store.old.vars }
    requires room { store.old.vars < 2 ^ 31 - 1 }
    ensures { OnOk result (LinksOne atoms.now edge.now store.old store.new) }
{
    store.known();
    let lit = condition(alloc, atoms, edge.condition.as_slice(), store)?;
    store.edge(edge.from, edge.to, lit)
}

/// A literal that is true just where the condition holds.
fn condition(alloc: Global, atoms: &Atoms, lits: &[Lit], store: &mut Store) -> Result<Lit, Memory>
    requires fit { LiteralsFit (Among atoms.now) lits.now }
    requires up { length atoms.now ≤ store.old.vars }
    requires room { store.old.vars < 2 ^ 31 - 1 }
    ensures gate { IfOk result (λ l. StandsForAll (literals_over atoms.now lits.now) store.old store.new l) }
    ensures ok { OnOk result (store.new ≡ after_conjunction (literals_over atoms.now lits.now) store.old) }
{
    let over = literals_over(alloc, atoms, lits)?;
    store.all_of(over.as_slice())
}
