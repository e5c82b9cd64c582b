//! Where atoms stand in bodies as positive literals, as chains of links in one array.

ghost use Rattle.std.specs.Prelude.{◌≡◌, ◌<◌, [], length, replicate, get_or, OnOk, IfOk};
ghost use Rattle.stable_check.specs.private.Growth.{take_off_all};
ghost use Rattle.stable_check.specs.private.Links.{with_entry};

use crate::counters::Counters;
use asp_base::Memory;
use std::alloc::Global;
use std::marker::Model;

/// The number of links at most, since they are numbered by 32 bits.
const MOST_LINKS: usize = 0xFFFF_FFFF;

/// A place where an atom stands in a body as a positive literal: the rule, the weight there, and the number of the next
/// link of that atom, or 0 for none.
#[derive(Clone, Copy)]
pub(crate) struct Link {
    rule: u32,
    weight: u32,
    next: u32,
}

/// For each atom where it stands in bodies as a positive literal, as a chain of links that begins with the newest one.
/// Links are numbered from 1.
#[derive(Drop)]
pub(crate) struct Occurrences {
    rules: u32,
    first: Vec<u32>,
    links: Vec<Link>,
}

impl Model for Occurrences {
    ghost use Rattle.stable_check.specs.private.Links.{Table, AreLinked, rows_of};

    ghost Value = { Table };

    ghost view = { λ o. record { rules = o.rules; rows = rows_of o.first.items o.links.items } };

    ghost invariant = { λ o. AreLinked o.rules o.first.items o.links.items };
}

impl Occurrences {
    /// None yet, for so many atoms and so many rules.
    pub(crate) fn new(alloc: Global, atoms: usize, rules: u32) -> Result<Occurrences, Memory>
        ensures { IfOk result (λ table. table ≡ record { rules = rules; rows = replicate atoms [] }) }
    {
        let first = Vec::from_elem(alloc, 0, atoms)?;
        Ok(Occurrences {
            rules,
            first,
            links: Vec::new(alloc),
        })
    }

    /// Adds an occurrence of the atom with this index.
    pub(crate) fn push(&mut self, index: usize, rule: u32, weight: u32) -> Result<(), Memory>
        requires index { index < length self.old.rows }
        requires rule { rule < self.old.rules }
        ensures { OnOk result (self.new ≡ record {
          rules = self.old.rules;
          rows = with_entry index
              (rule, weight) self.old.rows;
        }) }
    {
        if self.links.len() >= MOST_LINKS {
            return Err(Memory);
        }
        let next = self.first[index];
        self.links.push(Link { rule, weight, next })?;
        self.first[index] = self.links.len() as u32;
        Ok(())
    }

    /// Takes off the weights of the atom with this index from what the rules lack.
    pub(crate) fn take_off(&self, index: usize, counters: &mut Counters) -> Result<(), Memory>
        requires index { index < length self.now.rows }
        requires rules { self.now.rules ≡ length counters.old.lacks }
        ensures { OnOk result (counters.new ≡ take_off_all (get_or self.now.rows index []) counters.old) }
    {
        let mut at = self.first[index];
        while at != 0 {
            let link = self.links[at as usize - 1];
            counters.take_off(link.rule, link.weight)?;
            at = link.next;
        }
        Ok(())
    }
}
