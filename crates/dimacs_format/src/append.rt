//! Appending the text of a formula in one of its forms. After want of memory the text is as it was.

ghost use Rattle.std.specs.Prelude.{◌≡◌, ◌++◌, length, take, OnOk, OnErr};
ghost use Rattle.dimacs_format.specs.private.Texts.{HasNodesAs, text_as};

use crate::ecnf_writer::push_ecnf;
use crate::wcnf_writer::push_wcnf;
use crate::write::push_cnf;
use asp_base::Memory;
use clause_store::Formula;

/// What a formula's text is written as.
#[derive(Clone, Copy)]
pub(crate) enum Format {
    Cnf,
    Ecnf,
    Wcnf,
}

/// Appends the text of a formula as this. After `Memory` the text is as it was.
pub(crate) fn append_text(
    format: Format,
    formula: &Formula,
    out: &mut Vec<u8>,
) -> Result<(), Memory>
    ensures ok { OnOk result (out.new.items ≡ out.old.items ++ text_as format formula.now) }
    ensures nodes { OnOk result (HasNodesAs format formula.now) }
    ensures err { OnErr result (out.new.items ≡ out.old.items) }
{
    let before = out.len();
    let written = push_lines(format, formula, out);
    if written.is_err() {
        out.truncate(before);
    }
    written
}

/// After `Memory` more may stand behind the text that was there.
fn push_lines(format: Format, formula: &Formula, out: &mut Vec<u8>) -> Result<(), Memory>
    ensures ok { OnOk result (out.new.items ≡ out.old.items ++ text_as format formula.now) }
    ensures nodes { OnOk result (HasNodesAs format formula.now) }
    ensures err { OnErr result (take (length out.old.items) out.new.items ≡ out.old.items) }
{
    match format {
        Format::Cnf => push_cnf(formula, out),
        Format::Ecnf => push_ecnf(formula, out),
        Format::Wcnf => push_wcnf(formula, out),
    }
}
