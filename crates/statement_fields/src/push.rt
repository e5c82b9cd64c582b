//! Fields as they are written: each number is a word behind one blank.

ghost use Rattle.std.specs.Prelude.{◌≡◌, ℕ, [], ◌∷◌, ◌++◌, length, take, OnOk, OnErr};
ghost use Rattle.std.specs.List.{flat_map};
ghost use Rattle.std.specs.Fmt.{decimal, signed_decimal};
ghost use Rattle.statement_fields.specs.FieldWords.{literal_word, literal_words, item_words, atom_words, spaced_before};

use asp_base::{Lit, Memory};
use asp_scan::push_number;

/// Appends a number. After `Memory` more may stand behind the text that was there; this holds of each function here.
pub fn push_field(out: &mut Vec<u8>, value: i128) -> Result<(), Memory>
    ensures ok { OnOk result (out.new.items ≡ out.old.items ++ (32 ∷ signed_decimal value)) }
    ensures err { OnErr result (take (length out.old.items) out.new.items ≡ out.old.items) }
{
    out.push(b' ')?;
    push_number(out, value)
}

/// Appends a number of entries or bytes.
pub fn push_count(out: &mut Vec<u8>, count: usize) -> Result<(), Memory>
    ensures ok { OnOk result (out.new.items ≡ out.old.items ++ (32 ∷ decimal count)) }
    ensures err { OnErr result (take (length out.old.items) out.new.items ≡ out.old.items) }
{
    push_field(out, count as i128)
}

/// Appends how many literals there are, and they.
pub fn push_literals(out: &mut Vec<u8>, lits: &[Lit]) -> Result<(), Memory>
    ensures ok { OnOk result (out.new.items ≡ out.old.items ++ spaced_before (literal_words lits.now)) }
    ensures err { OnErr result (take (length out.old.items) out.new.items ≡ out.old.items) }
{
    push_count(out, lits.len())?;
    push_each_literal(out, lits)
}

fn push_each_literal(out: &mut Vec<u8>, lits: &[Lit]) -> Result<(), Memory>
    ensures ok { OnOk result (out.new.items ≡ out.old.items ++ flat_map (λ lit. 32 ∷ literal_word lit) lits.now) }
    ensures err { OnErr result (take (length out.old.items) out.new.items ≡ out.old.items) }
{
    for lit in lits {
        push_field(out, lit.value().into())?;
    }
    Ok(())
}

/// Appends how many items there are, and each literal with its weight.
pub fn push_items(out: &mut Vec<u8>, items: &[(Lit, i64)]) -> Result<(), Memory>
    ensures ok { OnOk result (out.new.items ≡ out.old.items ++ spaced_before (item_words items.now)) }
    ensures err { OnErr result (take (length out.old.items) out.new.items ≡ out.old.items) }
{
    push_count(out, items.len())?;
    push_each_item(out, items)
}

fn push_each_item(out: &mut Vec<u8>, items: &[(Lit, i64)]) -> Result<(), Memory>
    ensures ok { OnOk result (out.new.items ≡ out.old.items
        ++ flat_map (λ item. spaced_before (literal_word item.0 ∷ signed_decimal item.1 ∷ [])) items.now) }
    ensures err { OnErr result (take (length out.old.items) out.new.items ≡ out.old.items) }
{
    for item in items {
        push_item(out, item)?;
    }
    Ok(())
}

fn push_item(out: &mut Vec<u8>, item: &(Lit, i64)) -> Result<(), Memory>
    ensures ok { OnOk result (out.new.items
        ≡ out.old.items ++ spaced_before (literal_word item.now.0 ∷ signed_decimal item.now.1 ∷ [])) }
    ensures err { OnErr result (take (length out.old.items) out.new.items ≡ out.old.items) }
{
    push_field(out, item.0.value().into())?;
    push_field(out, item.1.into())
}

/// Appends how many atoms there are, and they.
pub fn push_atoms(out: &mut Vec<u8>, atoms: &[u32]) -> Result<(), Memory>
    ensures ok { OnOk result (out.new.items ≡ out.old.items ++ spaced_before (atom_words atoms.now)) }
    ensures err { OnErr result (take (length out.old.items) out.new.items ≡ out.old.items) }
{
    push_count(out, atoms.len())?;
    push_each_atom(out, atoms)
}

fn push_each_atom(out: &mut Vec<u8>, atoms: &[u32]) -> Result<(), Memory>
    ensures ok { OnOk result (out.new.items ≡ out.old.items ++ flat_map (λ atom. 32 ∷ decimal atom) atoms.now) }
    ensures err { OnErr result (take (length out.old.items) out.new.items ≡ out.old.items) }
{
    for atom in atoms {
        push_field(out, (*atom).into())?;
    }
    Ok(())
}
