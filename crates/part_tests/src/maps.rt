//! The text of a map, and what it says under an assignment.

ghost use Rattle.std.specs.Prelude.{◌≡◌, length, IfOk};

use asp_base::{ByteList, Lit, Memory};
use clause_store::Assignment;
use ground_program::{ItemList, Level, LevelList, LitList, Show, ShowList};
use std::alloc::Global;
use std::test::Fail;
use symbol_map::{Form, Place, PlaceList, SymbolMap, write};

/// Atom 1 is the variable 1, atom 3 the negation of variable 2; a name is shown where atom 3 is true.
fn sample(alloc: Global) -> Result<SymbolMap, Memory>
    ensures vars { IfOk result (λ map. map.vars ≡ 2) }
    ensures shows { IfOk result (λ map. length map.shows ≡ 1) }
{
    let one = Lit::positive(1);
    let two = Lit::positive(2);
    let places = [
        Place { atom: 1, lit: one },
        Place {
            atom: 3,
            lit: two.negate(),
        },
    ];
    let mut condition = LitList::new(alloc);
    condition.push(two.negate())?;
    let name = ByteList::from_vec(Vec::from_slice(alloc, b"a b)")?);
    let mut shows = Vec::new(alloc);
    shows.push(Show { name, condition })?;
    let items = ItemList::from_vec(Vec::from_slice(alloc, &[(one, 3), (two, -2)])?);
    let mut levels = Vec::new(alloc);
    levels.push(Level { priority: 1, items })?;
    Ok(SymbolMap {
        form: Form::Wcnf,
        vars: 2,
        atoms: PlaceList::from_vec(Vec::from_slice(alloc, &places)?),
        shows: ShowList::from_vec(shows),
        levels: LevelList::from_vec(levels),
    })
}

#[test]
fn writes_and_restricts(rt: HostRuntime) -> Result<(), Fail> {
    let alloc = rt.alloc();
    let map = sample(alloc)?;
    let mut out = Vec::new(alloc);
    write(&map, &mut out)?;
    let text = b"map 1 wcnf 2\natom 1 1\natom 3 -2\nshow 4 a b) 1 -2\nlevel 1 2 1 3 2 -2\nend\n";
    assert_eq!(rt; out.as_slice(), text.as_slice());
    let values = Assignment::of(alloc, 2, &[1])?;
    for (atom, want) in [(0, false), (1, true), (2, false), (3, true), (4, false)] {
        assert_eq!(rt; map.is_true(&values, atom), want);
    }
    assert!(rt; map.shown(&values, 1));
    let values = Assignment::of(alloc, 2, &[1, 2])?;
    assert!(rt; !map.is_true(&values, 3));
    assert!(rt; !map.shown(&values, 1));
    Ok(())
}
