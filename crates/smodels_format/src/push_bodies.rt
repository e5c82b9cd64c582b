//! Bodies as they are written: the atoms of their literals, those of negative ones first. After `Memory` more may stand
//! behind the text that was there; this holds of each function here.

ghost use Rattle.std.specs.Prelude.{◌≡◌, [], ◌∷◌, ◌++◌, length, take, OnOk, OnErr};
ghost use Rattle.std.specs.List.{flat_map, count_by};
ghost use Rattle.std.specs.Fmt.{decimal};
ghost use Rattle.statement_fields.specs.FieldWords.{spaced_before};
ghost use Rattle.smodels_format.specs.Lowering.{negatives_first, items_negatives_first};
ghost use Rattle.smodels_format.specs.Written.{body_words, item_words};
ghost use Rattle.smodels_format.specs.private.Writing.{has_sign, atom_piece, weight_piece};
ghost use Rattle.smodels_format.specs.declared.sign.Sign.TheVariants.{Negative, Positive};

use crate::sign::Sign;
use asp_base::{Lit, Memory};
use statement_fields::{push_count, push_field};

/// Whether the literal has this sign.
pub(crate) fn has_sign(lit: Lit, sign: Sign) -> bool
    ensures { result ≡ has_sign sign lit }
{
    match sign {
        Sign::Negative => !lit.is_positive(),
        Sign::Positive => lit.is_positive(),
    }
}

/// Appends an atom.
pub(crate) fn push_atom_field(out: &mut Vec<u8>, atom: u32) -> Result<(), Memory>
    ensures ok { OnOk result (out.new.items ≡ out.old.items ++ (32 ∷ decimal atom)) }
    ensures err { OnErr result (take (length out.old.items) out.new.items ≡ out.old.items) }
{
    push_field(out, atom.into())
}

/// Appends how many literals there are, how many of them are negative, and their atoms.
pub(crate) fn push_literals(out: &mut Vec<u8>, lits: &[Lit]) -> Result<(), Memory>
    ensures ok { OnOk result (out.new.items ≡ out.old.items ++ spaced_before (body_words (negatives_first lits.now))) }
    ensures err { OnErr result (take (length out.old.items) out.new.items ≡ out.old.items) }
{
    push_count(out, lits.len())?;
    push_count(out, negatives(lits))?;
    push_atoms_of(out, lits, Sign::Negative)?;
    push_atoms_of(out, lits, Sign::Positive)
}

/// Appends how many items there are, how many of them have negative literals, the atoms of their literals, and
/// their weights.
pub(crate) fn push_items(out: &mut Vec<u8>, items: &[(Lit, i64)]) -> Result<(), Memory>
    ensures ok { OnOk result (out.new.items ≡ out.old.items
        ++ spaced_before (item_words (items_negatives_first items.now))) }
    ensures err { OnErr result (take (length out.old.items) out.new.items ≡ out.old.items) }
{
    push_item_counts(out, items)?;
    push_atoms_and_weights(out, items)
}

fn push_atoms_and_weights(out: &mut Vec<u8>, items: &[(Lit, i64)]) -> Result<(), Memory>
    ensures ok { OnOk result (out.new.items ≡ out.old.items
        ++ (flat_map (λ item. atom_piece Negative item.0) items.now
        ++ (flat_map (λ item. atom_piece Positive item.0) items.now
        ++ (flat_map (λ item. weight_piece Negative item) items.now
        ++ flat_map (λ item. weight_piece Positive item) items.now)))) }
    ensures err { OnErr result (take (length out.old.items) out.new.items ≡ out.old.items) }
{
    push_item_atoms(out, items, Sign::Negative)?;
    push_item_atoms(out, items, Sign::Positive)?;
    push_weights(out, items, Sign::Negative)?;
    push_weights(out, items, Sign::Positive)
}

fn push_item_counts(out: &mut Vec<u8>, items: &[(Lit, i64)]) -> Result<(), Memory>
    ensures ok { OnOk result (out.new.items ≡ out.old.items
        ++ spaced_before (decimal (length items.now)
        ∷ decimal (count_by (λ item. has_sign Negative item.0) items.now) ∷ [])) }
    ensures err { OnErr result (take (length out.old.items) out.new.items ≡ out.old.items) }
{
    push_count(out, items.len())?;
    push_count(out, negative_items(items))
}

/// How many of the literals are negative.
fn negatives(lits: &[Lit]) -> usize
    ensures { result ≡ count_by (λ lit. has_sign Negative lit) lits.now }
{
    lits.iter().filter(|lit| !lit.is_positive()).count()
}

/// How many of the items have negative literals.
fn negative_items(items: &[(Lit, i64)]) -> usize
    ensures { result ≡ count_by (λ item. has_sign Negative item.0) items.now }
{
    items.iter().filter(|item| !item.0.is_positive()).count()
}

/// Appends the atoms of the literals of a sign.
fn push_atoms_of(out: &mut Vec<u8>, lits: &[Lit], sign: Sign) -> Result<(), Memory>
    ensures ok { OnOk result (out.new.items ≡ out.old.items ++ flat_map (λ lit. atom_piece sign lit) lits.now) }
    ensures err { OnErr result (take (length out.old.items) out.new.items ≡ out.old.items) }
{
    for lit in lits {
        push_atom_of(out, *lit, sign)?;
    }
    Ok(())
}

/// Appends the atoms of the items' literals of a sign.
fn push_item_atoms(out: &mut Vec<u8>, items: &[(Lit, i64)], sign: Sign) -> Result<(), Memory>
    ensures ok { OnOk result (out.new.items ≡ out.old.items ++ flat_map (λ item. atom_piece sign item.0) items.now) }
    ensures err { OnErr result (take (length out.old.items) out.new.items ≡ out.old.items) }
{
    for item in items {
        push_atom_of(out, item.0, sign)?;
    }
    Ok(())
}

/// Appends the atom of the literal where it has the sign.
fn push_atom_of(out: &mut Vec<u8>, lit: Lit, sign: Sign) -> Result<(), Memory>
    ensures ok { OnOk result (out.new.items ≡ out.old.items ++ atom_piece sign lit) }
    ensures err { OnErr result (take (length out.old.items) out.new.items ≡ out.old.items) }
{
    if !has_sign(lit, sign) {
        return Ok(());
    }
    push_atom_field(out, lit.var())
}

/// Appends the weights of the items with literals of a sign.
fn push_weights(out: &mut Vec<u8>, items: &[(Lit, i64)], sign: Sign) -> Result<(), Memory>
    ensures ok { OnOk result (out.new.items ≡ out.old.items ++ flat_map (λ item. weight_piece sign item) items.now) }
    ensures err { OnErr result (take (length out.old.items) out.new.items ≡ out.old.items) }
{
    for item in items {
        push_weight(out, item, sign)?;
    }
    Ok(())
}

/// Appends the weight of the item where its literal has the sign.
fn push_weight(out: &mut Vec<u8>, item: &(Lit, i64), sign: Sign) -> Result<(), Memory>
    ensures ok { OnOk result (out.new.items ≡ out.old.items ++ weight_piece sign item.now) }
    ensures err { OnErr result (take (length out.old.items) out.new.items ≡ out.old.items) }
{
    if !has_sign(item.0, sign) {
        return Ok(());
    }
    push_field(out, item.1.into())
}
