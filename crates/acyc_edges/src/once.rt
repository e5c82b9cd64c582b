//! Each number of a list once.

ghost use Rattle.std.specs.Prelude.{◌≡◌, IfOk};
ghost use Rattle.asp_base.specs.Sets.{once};

use asp_base::Memory;
use ground_program::AtomList;
use indexmap::IndexSet;
use std::alloc::Global;

/// Each atom where it stands first.
pub(crate) fn each_once(alloc: Global, atoms: &[u32]) -> Result<AtomList, Memory>
    ensures { IfOk result (λ list. list ≡ once atoms.now) }
{
    let mut seen = IndexSet::new(alloc);
    let mut list = Vec::new(alloc);
    for atom in atoms {
        if seen.insert(*atom)? {
            list.push(*atom)?;
        }
    }
    Ok(AtomList::from_vec(list))
}
