//! The text of a map.

ghost use Rattle.std.specs.Prelude.{◌≡◌, ◌++◌, length, take, Ok, OnOk, OnErr};
ghost use Rattle.std.specs.List.{flat_map};
ghost use Rattle.symbol_map.specs.IsMap.{IsMap};
ghost use Rattle.symbol_map.specs.Read.{map_of};
ghost use Rattle.symbol_map.specs.private.Fronts.{name_front, priority_front};
ghost use Rattle.symbol_map.specs.Written.{header_line, place_line, show_line, level_line, map_text};

use crate::map::{Form, Place, SymbolMap};
use asp_base::Memory;
use ground_program::{Level, Show};
use statement_fields::{push_count, push_field, push_items, push_literals};

/// Appends the text of a map. After `Memory` the text is as it was.
pub fn write(map: &SymbolMap, out: &mut Vec<u8>) -> Result<(), Memory>
    ensures ok { OnOk result (out.new.items ≡ out.old.items ++ map_text map.now) }
    // What is appended is read as this map.
    ensures read_back { OnOk result (map_of (map_text map.now) ≡ Ok map.now) }
    ensures err { OnErr result (out.new.items ≡ out.old.items) }
{
    let before = out.len();
    let written = push_lines(map, out);
    if written.is_err() {
        out.truncate(before);
    }
    written
}

// After `Memory` more may stand behind the text that was there; this holds of each function below.
fn push_lines(map: &SymbolMap, out: &mut Vec<u8>) -> Result<(), Memory>
    ensures ok { OnOk result (out.new.items ≡ out.old.items ++ map_text map.now) }
    // Said here for `write`: the facts of a map are known where its fields are read.
    ensures is_map { OnOk result (IsMap map.now) }
    ensures err { OnErr result (take (length out.old.items) out.new.items ≡ out.old.items) }
{
    push_header(map, out)?;
    push_places(map.atoms.as_slice(), out)?;
    push_shows(map.shows.as_slice(), out)?;
    push_levels(map.levels.as_slice(), out)?;
    out.extend_from_slice(b"end\n")?;
    Ok(())
}

fn push_header(map: &SymbolMap, out: &mut Vec<u8>) -> Result<(), Memory>
    ensures ok { OnOk result (out.new.items ≡ out.old.items ++ header_line map.now) }
    ensures err { OnErr result (take (length out.old.items) out.new.items ≡ out.old.items) }
{
    let start = match map.form {
        Form::Cnf => b"map 1 cnf".as_slice(),
        Form::Ecnf => b"map 1 ecnf".as_slice(),
        Form::Wcnf => b"map 1 wcnf".as_slice(),
    };
    out.extend_from_slice(start)?;
    push_field(out, map.vars.into())?;
    out.push(b'\n')?;
    Ok(())
}

fn push_places(places: &[Place], out: &mut Vec<u8>) -> Result<(), Memory>
    ensures ok { OnOk result (out.new.items ≡ out.old.items ++ flat_map place_line places.now) }
    ensures err { OnErr result (take (length out.old.items) out.new.items ≡ out.old.items) }
{
    for place in places {
        push_place(place, out)?;
    }
    Ok(())
}

fn push_place(place: &Place, out: &mut Vec<u8>) -> Result<(), Memory>
    ensures ok { OnOk result (out.new.items ≡ out.old.items ++ place_line place.now) }
    ensures err { OnErr result (take (length out.old.items) out.new.items ≡ out.old.items) }
{
    out.extend_from_slice(b"atom")?;
    push_field(out, place.atom.into())?;
    push_field(out, place.lit.value().into())?;
    out.push(b'\n')?;
    Ok(())
}

fn push_shows(shows: &[Show], out: &mut Vec<u8>) -> Result<(), Memory>
    ensures ok { OnOk result (out.new.items ≡ out.old.items ++ flat_map show_line shows.now) }
    ensures err { OnErr result (take (length out.old.items) out.new.items ≡ out.old.items) }
{
    for show in shows {
        push_show(show, out)?;
    }
    Ok(())
}

fn push_show(show: &Show, out: &mut Vec<u8>) -> Result<(), Memory>
    ensures ok { OnOk result (out.new.items ≡ out.old.items ++ show_line show.now) }
    ensures err { OnErr result (take (length out.old.items) out.new.items ≡ out.old.items) }
{
    push_name(show.name.as_slice(), out)?;
    push_literals(out, show.condition.as_slice())?;
    out.push(b'\n')?;
    Ok(())
}

/// The name may have blanks, so its length comes first.
fn push_name(name: &[u8], out: &mut Vec<u8>) -> Result<(), Memory>
    ensures ok { OnOk result (out.new.items ≡ out.old.items ++ name_front name.now) }
    ensures err { OnErr result (take (length out.old.items) out.new.items ≡ out.old.items) }
{
    out.extend_from_slice(b"show")?;
    push_count(out, name.len())?;
    out.push(b' ')?;
    out.extend_from_slice(name)?;
    Ok(())
}

fn push_levels(levels: &[Level], out: &mut Vec<u8>) -> Result<(), Memory>
    ensures ok { OnOk result (out.new.items ≡ out.old.items ++ flat_map level_line levels.now) }
    ensures err { OnErr result (take (length out.old.items) out.new.items ≡ out.old.items) }
{
    for level in levels {
        push_level(level, out)?;
    }
    Ok(())
}

fn push_level(level: &Level, out: &mut Vec<u8>) -> Result<(), Memory>
    ensures ok { OnOk result (out.new.items ≡ out.old.items ++ level_line level.now) }
    ensures err { OnErr result (take (length out.old.items) out.new.items ≡ out.old.items) }
{
    push_priority(level, out)?;
    push_items(out, level.items.as_slice())?;
    out.push(b'\n')?;
    Ok(())
}

fn push_priority(level: &Level, out: &mut Vec<u8>) -> Result<(), Memory>
    ensures ok { OnOk result (out.new.items ≡ out.old.items ++ priority_front level.now.priority) }
    ensures err { OnErr result (take (length out.old.items) out.new.items ≡ out.old.items) }
{
    out.extend_from_slice(b"level")?;
    push_field(out, level.priority.into())
}
