//! Rules of literals, put behind others.

ghost use Rattle.std.specs.Prelude.{◌≡◌, ◌<◌, ◌^◌, [], ◌∷◌, ◌++◌, OnOk, OnErr};
ghost use Rattle.asp_base.specs.Literal.{Pos, Neg};
ghost use Rattle.ground_program.specs.declared.program.Head.TheVariants.{Nothing};
ghost use Rattle.ground_program.specs.declared.program.Body.TheVariants.{All};

use asp_base::{Lit, Memory};
use ground_program::{Body, Head, LitList, Rule, RuleList};
use std::alloc::Global;

/// Puts a rule of these literals behind the others. After `Memory` the list is unchanged.
pub(crate) fn push_rule(
    alloc: Global,
    rules: &mut RuleList,
    head: Head,
    lits: &[Lit],
) -> Result<(), Memory>
    ensures ok { OnOk result (rules.new ≡ rules.old ++ (record { head = head; body = All lits.now } ∷ [])) }
    ensures err { OnErr result (rules.new ≡ rules.old) }
{
    let body = Body::All(LitList::from_slice(alloc, lits)?);
    rules.push(Rule { head, body })
}

/// Where the first atom holds, so must the second.
pub(crate) fn push_limit(
    alloc: Global,
    rules: &mut RuleList,
    first: u32,
    second: u32,
) -> Result<(), Memory>
    requires first_above { 0 < first }
    requires first_below { first < 2 ^ 31 }
    requires second_above { 0 < second }
    requires second_below { second < 2 ^ 31 }
    ensures { OnOk result (rules.new ≡ rules.old
        ++ (record { head = Nothing; body = All (Pos first ∷ Neg second ∷ []) } ∷ [])) }
{
    push_rule(
        alloc,
        rules,
        Head::Nothing,
        &[Lit::positive(first), Lit::positive(second).negate()],
    )
}
