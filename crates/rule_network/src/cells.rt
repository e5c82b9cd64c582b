//! One new atom with its rules: a cell of a network. What is built above goes by these calls and sees no rule.

ghost use Rattle.std.specs.Prelude.{◌≡◌, ◌||◌, ◌+◌, ◌*◌, ◌<◌, ◌^◌, true, [], length, OnOk, OnErr, IfOk};
ghost use Rattle.std.specs.List.{list_any, list_all};
ghost use Rattle.rule_network.specs.Block.{Known, AllKnown, Defines, Adds, HasRoom, value};

use crate::network::Network;
use asp_base::{Lit, Memory};

/// A new atom that holds where one of the literals does.
pub fn any_of(net: &mut Network<'_>, lits: &[Lit]) -> Result<Lit, Memory>
    requires room { HasRoom 1 net.old }
    requires known { AllKnown net.old lits.now }
    ensures defines { IfOk result (λ lit.
        Defines net.old net.new lit (λ X M. list_any (value net.old X M) lits.now)) }
    ensures adds { OnOk result (Adds 1 (1 + 2 * length lits.now) net.old net.new) }
{
    let head = net.atom()?;
    for lit in lits {
        net.rule(head, &[*lit])?;
    }
    Ok(head)
}

/// A new atom that holds where all of the literals do.
pub fn all_of(net: &mut Network<'_>, lits: &[Lit]) -> Result<Lit, Memory>
    requires room { HasRoom 1 net.old }
    requires known { AllKnown net.old lits.now }
    ensures defines { IfOk result (λ lit.
        Defines net.old net.new lit (λ X M. list_all (value net.old X M) lits.now)) }
    ensures adds { OnOk result (Adds 1 (2 + length lits.now) net.old net.new) }
{
    let head = net.atom()?;
    net.rule(head, lits)?;
    Ok(head)
}

/// A new atom that holds where the one literal does, or all of the others.
pub fn one_or_all(net: &mut Network<'_>, one: Lit, all: &[Lit]) -> Result<Lit, Memory>
    requires room { HasRoom 1 net.old }
    requires one { Known net.old one }
    requires all { AllKnown net.old all.now }
    ensures defines { IfOk result (λ lit. Defines net.old net.new lit
        (λ X M. value net.old X M one || list_all (value net.old X M) all.now)) }
    ensures adds { OnOk result (Adds 1 (4 + length all.now) net.old net.new) }
{
    let head = net.atom()?;
    net.rule(head, &[one])?;
    net.rule(head, all)?;
    Ok(head)
}
