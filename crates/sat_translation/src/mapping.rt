//! The map of a formula over a program's atoms: atoms, names and levels over its variables. What the map keeps of the
//! program stays where it is in memory: names are not copied, and shows are renamed in place.

ghost use Rattle.std.specs.Prelude.{◌≡◌, ◌≤◌, ◌<◌, ◌+◌, ◌-◌, ◌^◌, length, map, IfOk, OnOk};
ghost use Rattle.std.specs.List.{AllByRecursion, sum_by};
ghost use Rattle.asp_base.specs.Literal.{atom_of};
ghost use Rattle.asp_base.specs.Sets.{members, Within};
ghost use Rattle.sat_translation.specs.InputMap.{input_map, placed, literals_over, items_over, show_over, level_over};
ghost use Rattle.ground_program.specs.Facts.{Among, IsAtom, LiteralsFit, FitsWeight, ShowFits, LevelFits};

use asp_base::{Lit, Memory};
use ground_program::{Atoms, ItemList, Level, LevelList, LitList, Program, Show, ShowList};
use std::alloc::Global;
use symbol_map::{Form, Place, PlaceList, SymbolMap};

/// The map of a formula with this number of variables, of which the first are those of a program's atoms, with the
/// places of these of the atoms. The program's rules are let go first.
pub fn input_map(
    alloc: Global,
    program: Program,
    kept: &Atoms,
    vars: u32,
) -> Result<SymbolMap, Memory>
    requires atoms { length program.atoms ≤ vars }
    requires light { sum_by (λ level. 1 + length level.items) program.levels ≤ 2 ^ 24 }
    requires room { vars < 2 ^ 31 }
    requires within { Within (members kept.now) (members program.atoms) }
    ensures { IfOk result (λ map. map ≡ input_map program kept.now vars) }
{
    let Program {
        atoms,
        rules,
        levels,
        shows,
        ..
    } = program;
    drop(rules);
    let shows = shows_over(alloc, &atoms, shows)?;
    let levels = levels_over(alloc, &atoms, levels)?;
    let atoms = places_of(alloc, &atoms, kept.as_slice())?;
    Ok(SymbolMap {
        form: Form::Cnf,
        vars,
        atoms,
        shows,
        levels,
    })
}

/// The map of a formula's text in another form.
pub fn in_form(map: SymbolMap, form: Form) -> SymbolMap
    ensures { result ≡ record map { form = form } }
{
    let SymbolMap {
        vars,
        atoms,
        shows,
        levels,
        ..
    } = map;
    SymbolMap {
        form,
        vars,
        atoms,
        shows,
        levels,
    }
}

/// Each of these atoms at the variable of its place among all.
fn places_of(alloc: Global, atoms: &Atoms, kept: &[u32]) -> Result<PlaceList, Memory>
    requires { AllByRecursion (λ a. IsAtom a × Among atoms.now a) kept.now }
    ensures { IfOk result (λ places. places ≡ map (placed atoms.now) kept.now) }
{
    let mut places = Vec::with_capacity(alloc, kept.len())?;
    for atom in kept {
        let lit = atoms.literal_over(Lit::positive(*atom));
        places.push(Place { atom: *atom, lit })?;
    }
    Ok(PlaceList::from_vec(places))
}

/// The shows over variables, with the names that they have.
fn shows_over(alloc: Global, atoms: &Atoms, shows: ShowList) -> Result<ShowList, Memory>
    requires { AllByRecursion (ShowFits (Among atoms.now)) shows }
    ensures { IfOk result (λ list. list ≡ map (show_over atoms.now) shows) }
{
    let mut renamed = shows.into_vec();
    for show in renamed.iter_mut() {
        rename(alloc, atoms, show)?;
    }
    Ok(ShowList::from_vec(renamed))
}

/// Puts the condition of a show over variables.
fn rename(alloc: Global, atoms: &Atoms, show: &mut Show) -> Result<(), Memory>
    requires { ShowFits (Among atoms.now) show.old }
    ensures { OnOk result (show.new ≡ show_over atoms.now show.old) }
{
    show.condition = literals_over(alloc, atoms, show.condition.as_slice())?;
    Ok(())
}

/// The levels over variables.
fn levels_over(alloc: Global, atoms: &Atoms, levels: LevelList) -> Result<LevelList, Memory>
    requires { AllByRecursion (LevelFits (Among atoms.now)) levels }
    ensures { IfOk result (λ list. list ≡ map (level_over atoms.now) levels) }
{
    let mut renamed = Vec::new(alloc);
    for level in levels.as_slice() {
        renamed.push(Level {
            priority: level.priority,
            items: items_over(alloc, atoms, level.items.as_slice())?,
        })?;
    }
    Ok(LevelList::from_vec(renamed))
}

/// The literals over variables.
pub fn literals_over(alloc: Global, atoms: &Atoms, lits: &[Lit]) -> Result<LitList, Memory>
    requires { LiteralsFit (Among atoms.now) lits.now }
    ensures { IfOk result (λ list. list ≡ literals_over atoms.now lits.now) }
{
    let mut renamed = LitList::new(alloc);
    for lit in lits {
        renamed.push(atoms.literal_over(*lit))?;
    }
    Ok(renamed)
}

/// The items over variables, with the weights that they have.
fn items_over(alloc: Global, atoms: &Atoms, items: &[(Lit, i64)]) -> Result<ItemList, Memory>
    requires { AllByRecursion (λ item. Among atoms.now (atom_of item.0) × FitsWeight item.1) items.now }
    ensures { IfOk result (λ list. list ≡ items_over atoms.now items.now) }
{
    let mut renamed = Vec::new(alloc);
    for (lit, weight) in items {
        renamed.push((atoms.literal_over(*lit), *weight))?;
    }
    Ok(ItemList::from_vec(renamed))
}
