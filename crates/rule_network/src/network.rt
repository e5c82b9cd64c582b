//! A network: a block of rules that is being built, with what gives its new atoms. Each rule is for an atom of the
//! block and rests on what was there before, so no order of evaluation has to be kept: what an atom says is what its
//! rules derive.

ghost use Rattle.std.specs.Prelude.{◌≡◌, ◌+◌, ◌<◌, ◌^◌, true, [], length, OnOk, OnErr, IfOk};
ghost use Rattle.asp_base.specs.Literal.{Pos, atom_of, is_positive};
ghost use Rattle.asp_base.specs.Sets.{members};
ghost use Rattle.ground_program.specs.Dependencies.{positives_of_body};
ghost use Rattle.ground_program.specs.Fresh.{Supply};
ghost use Rattle.rule_network.specs.private.Inside.{inputs_of};
ghost use Rattle.rule_network.specs.Block.{IsBlock, AllBefore, empty_block, next_atom, with_atom, with_rule, drawn};

use asp_base::{Lit, Memory};
use ground_program::{Body, FreshAtoms, Head, LitList, Rule, RuleList};
use std::alloc::Global;
use std::marker::Model;

/// A block of rules whose heads are its own new atoms and whose bodies are positive in them. Its outside atoms are the
/// atoms of the program for which the numbers are new, and the numbers that were given before the block was begun.
/// Those of them that may stand positive in bodies are its inputs.
#[derive(Drop)]
pub struct Network<'a> {
    alloc: Global,
    fresh: FreshAtoms,
    made: Vec<u32>,
    rules: RuleList,
    body: Option<&'a Body>,
}

impl<'a> Model for Network<'a> {
    ghost use Rattle.rule_network.specs.Block.{Block, IsBlock};
    ghost use Rattle.rule_network.specs.private.Inside.{block_of};

    ghost Value = { Block };

    ghost view = { block_of };

    ghost invariant = { λ n. IsBlock (block_of n) };
}

impl<'a> Network<'a> {
    /// No atoms and no rules yet. Each outside atom is an input.
    pub fn new(alloc: Global, fresh: FreshAtoms) -> Network<'a>
        ensures { result ≡ empty_block fresh None }
    {
        Network::over(alloc, fresh, None)
    }

    /// No atoms and no rules yet. The inputs are the positive atoms of the body: whatever is built over the literals of
    /// the body depends positively on these atoms alone, and on atoms of the block.
    pub fn for_body(alloc: Global, fresh: FreshAtoms, body: &'a Body) -> Network<'a>
        ensures { result ≡ empty_block fresh (Some (positives_of_body body.now)) }
    {
        Network::over(alloc, fresh, Some(body))
    }

    /// No atoms and no rules yet, over what the body gives as inputs.
    fn over(alloc: Global, fresh: FreshAtoms, body: Option<&'a Body>) -> Network<'a>
        ensures { result ≡ empty_block fresh (inputs_of body.entry) }
    {
        Network {
            alloc,
            fresh,
            made: Vec::new(alloc),
            rules: RuleList::from_vec(Vec::new(alloc)),
            body,
        }
    }

    /// A new atom of the block, as a positive literal. The program's atoms and the numbers that were given must
    /// together be fewer than 2^30. After `Memory` the block is unchanged.
    pub fn atom(&mut self) -> Result<Lit, Memory>
        requires { length self.old.supply.atoms + drawn self.old < 2 ^ 30 }
        ensures facts { IsBlock self.old }
        ensures lit { IfOk result (λ lit. lit ≡ Pos (next_atom self.old)) }
        ensures ok { OnOk result (self.new ≡ with_atom (next_atom self.old) self.old) }
        ensures err { OnErr result (self.new ≡ self.old) }
    {
        self.made.reserve(1)?;
        let atom = self.fresh.next();
        self.made.push_reserved(atom);
        Ok(Lit::positive(atom))
    }

    /// A rule for an atom of the block. Each literal of its body is positive over an atom of the block that was made
    /// before that one, or positive over an input, or negative over an outside atom. After `Memory` the block is
    /// unchanged.
    pub fn rule(&mut self, head: Lit, body: &[Lit]) -> Result<(), Memory>
        requires positive { is_positive head ≡ true }
        requires own { members self.old.made (atom_of head) ≡ true }
        requires before { AllBefore self.old (atom_of head) body.now }
        ensures ok { OnOk result (self.new ≡ with_rule (atom_of head) body.now self.old) }
        ensures err { OnErr result (self.new ≡ self.old) }
    {
        let lits = LitList::from_slice(self.alloc, body)?;
        self.rules.push(Rule {
            head: Head::One(head.var()),
            body: Body::All(lits),
        })
    }

    /// The rules, and what gives further new atoms. What is true of every block is true of this one.
    pub fn into_parts(self) -> (RuleList, FreshAtoms)
        ensures rules { let net = self.entry in result.0 ≡ net.rules }
        ensures supply { let net = self.entry in result.1 ≡ net.supply }
        ensures facts { IsBlock self.entry }
    {
        (self.rules, self.fresh)
    }
}
