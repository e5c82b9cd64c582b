//! Flags that stand for atoms, in the order of the atoms.

ghost use Rattle.std.specs.Prelude.{◌≡◌, length};
ghost use Rattle.ground_program.specs.Facts.{Among};
ghost use Rattle.stable_check.specs.private.Lack.{flag};

use ground_program::Atoms;

/// The flag of an atom among those that stand for these atoms.
pub(crate) fn flag(atoms: &Atoms, flags: &[bool], atom: u32) -> bool
    requires among { Among atoms.now atom }
    requires same { length flags.now ≡ length atoms.now }
    ensures { result ≡ flag atoms.now flags.now atom }
{
    flags[atoms.index_of(atom)]
}
