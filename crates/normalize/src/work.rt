//! Normalization under way, rule by rule. A choice of an atom becomes a rule for it that may be refuted by the atom's
//! complement, a new atom that has one rule itself; a sum of weights becomes a network of new atoms, and the rule
//! reads the literal that answers it. Each rule is looked at once, and what is made for it is put behind what was made
//! before.
//!   P. Simons, I. Niemelä, T. Soininen. Extending and implementing the stable model semantics. Artificial
//!     Intelligence 138, 2002.
//!   J. Bomanson, M. Gebser, T. Janhunen. Improving the normalization of weight rules in answer set programs. JELIA
//!     2014.

ghost use Rattle.std.specs.Prelude.{◌≡◌, ◌≤◌, ◌+◌, ◌*◌, ◌^◌, true, ℕ, List, [], ◌∷◌, ◌++◌, length, IfOk};
ghost use Rattle.std.specs.List.{AllByRecursion, sum_by};
ghost use Rattle.ground_program.specs.Dependencies.{positives_of_literals, positives_of_body};
ghost use Rattle.ground_program.specs.Facts.{BodyFits, RuleFits, IsProgram};
ghost use Rattle.ground_program.specs.Normal.{AreNormal, IsNormalHead};
ghost use Rattle.ground_program.specs.Room.{head_term, body_part, term, room};
ghost use Rattle.ground_program.specs.Size.{rule_size};
ghost use Rattle.ground_program.specs.declared.program.Body.TheVariants.{All};
ghost use Rattle.rule_network.specs.Block.{IsBlock};
ghost use Rattle.normalize.specs.private.Added.{Adds, AddsRule, AddsAnswer};
ghost use Rattle.normalize.specs.private.Made.{made_of};
ghost use Rattle.tangle_laws.specs.Pieces.{Piece, ArePieces, AreApart, made_rules};
ghost use Rattle.normalize.specs.private.Replacement.{HeadIn};
ghost use Rattle.normalize.specs.private.Stage.{Stage, IsStage, start, rule_over, with_rule, atoms_of, Listed, LitsKnown, IsNormal, IsSum, is_idle, Turns, Answers, SumAnswers, reach_lits, sum_room, HasRoomFor, Spends, choice_of};

use crate::complements::Complements;
use asp_base::{Lit, Memory};
use ground_program::{
    Atoms, Body, FreshAtoms, Head, LitList, Program, Rule, RuleList, copied_edges, copied_levels,
    copied_shows, push_rules,
};
use rule_network::Network;
use std::alloc::Global;
use std::marker::Model;
use weight_rules::{Reach, sum_at_least};

/// The rules so far, what gives numbers for new atoms, and the complements of atoms.
#[derive(Drop)]
pub(crate) struct Work {
    alloc: Global,
    rules: Vec<Rule>,
    fresh: FreshAtoms,
    complements: Complements,
}

impl Model for Work {
    ghost use Rattle.normalize.specs.private.Stage.{Stage, IsStage};
    ghost use Rattle.normalize.specs.private.Inside.{stage_of};

    ghost Value = { Stage };

    ghost view = { stage_of };

    ghost invariant = { λ w. IsStage (stage_of w) };
}

/// The literals, and one more behind them.
fn with_literal(alloc: Global, lits: &[Lit], more: Lit) -> Result<LitList, Memory>
    ensures { IfOk result (λ list. list ≡ lits.now ++ (more ∷ [])) }
{
    let mut list = LitList::from_slice(alloc, lits)?;
    list.push(more)?;
    Ok(list)
}

/// Whether a head is a choice without atoms.
fn is_idle(head: &Head) -> bool
    ensures { result ≡ is_idle head.now }
{
    match head {
        Head::Choice(atoms) => atoms.as_slice().is_empty(),
        _ => false,
    }
}

impl Work {
    /// No rules yet.
    fn new(alloc: Global, program: &Program) -> Result<Work, Memory>
        ensures { IfOk result (λ work. work ≡ start program.now.atoms) }
    {
        program.known();
        Ok(Work {
            alloc,
            rules: Vec::new(alloc),
            fresh: FreshAtoms::new(alloc, program)?,
            complements: Complements::new(alloc),
        })
    }

    /// Nothing: a caller learns that what is true of every stage is true of this one.
    fn known(&self)
        ensures { IsStage self.now }
    {
        let _rules = &self.rules;
    }

    /// A choice of one atom: the rule with its complement, and where it has none yet, a new one with its rule.
    fn choice(self, atom: u32, lits: &[Lit]) -> Result<Work, Memory>
        requires room { HasRoomFor (5 + length lits.now) self }
        requires atom { atoms_of self atom ≡ true }
        requires lits { LitsKnown self lits.now }
        ensures turns { IfOk result (λ work. Turns (choice_of (atom ∷ []) lits.now ∷ []) self work) }
        ensures spends { IfOk result (λ work. Spends (5 + length lits.now) self work) }
        ensures adds { IfOk result (λ work. Adds (atom ∷ []) (positives_of_literals lits.now) self work) }
        ensures once { (x : ℕ) → Listed self.pairs atom x → IfOk result (λ work. work.supply ≡ self.supply) }
    {
        let mut work = self;
        if let Some(complement) = work.complements.get(atom) {
            let body = with_literal(work.alloc, lits, Lit::positive(complement).negate())?;
            work.rules.push(Rule {
                head: Head::One(atom),
                body: Body::All(body),
            })?;
            return Ok(work);
        }
        let complement = work.fresh.next();
        let body = with_literal(work.alloc, lits, Lit::positive(complement).negate())?;
        work.rules.push(Rule {
            head: Head::One(atom),
            body: Body::All(body),
        })?;
        let refuted = LitList::from_slice(work.alloc, &[Lit::positive(atom).negate()])?;
        work.rules.push(Rule {
            head: Head::One(complement),
            body: Body::All(refuted),
        })?;
        work.complements.insert(atom, complement)?;
        Ok(work)
    }

    /// A choice of several atoms, one after another.
    fn choices(self, atoms: &[u32], lits: &[Lit]) -> Result<Work, Memory>
        requires room { HasRoomFor (length atoms.now * (5 + length lits.now)) self }
        requires atoms { AllByRecursion (λ a. atoms_of self a ≡ true) atoms.now }
        requires lits { LitsKnown self lits.now }
        ensures turns { IfOk result (λ work. Turns (choice_of atoms.now lits.now ∷ []) self work) }
        ensures spends { IfOk result (λ work. Spends (length atoms.now * (5 + length lits.now)) self work) }
        ensures adds { IfOk result (λ work. Adds atoms.now (positives_of_literals lits.now) self work) }
    {
        self.known();
        let mut work = self;
        for atom in atoms {
            work = work.choice(*atom, lits)?;
        }
        Ok(work)
    }

    /// A rule that is normal already.
    fn plain(self, head: Head, lits: &[Lit]) -> Result<Work, Memory>
        requires normal { IsNormalHead head }
        requires head { HeadIn (atoms_of self) head }
        requires lits { LitsKnown self lits.now }
        ensures is { IfOk result (λ work. work ≡ with_rule (rule_over head lits.now) self) }
        ensures turns { IfOk result (λ work. Turns (rule_over head lits.now ∷ []) self work) }
        ensures spends { IfOk result (λ work. Spends (rule_size (rule_over head lits.now)) self work) }
        ensures adds { IfOk result (λ work. AddsRule (rule_over head lits.now) self work) }
    {
        let mut work = self;
        let list = LitList::from_slice(work.alloc, lits)?;
        work.rules.push(Rule {
            head,
            body: Body::All(list),
        })?;
        Ok(work)
    }

    /// A new atom that holds where the literals do.
    fn name(self, lits: &[Lit]) -> Result<(Work, Lit), Memory>
        requires room { HasRoomFor (2 + length lits.now) self }
        requires lits { LitsKnown self lits.now }
        ensures answers { IfOk result (λ named. Answers (All lits.now) (named.1 ∷ []) self named.0) }
        ensures spends { IfOk result (λ named. Spends (2 + length lits.now) self named.0) }
        ensures adds { IfOk result (λ named.
            AddsAnswer (positives_of_literals lits.now) (named.1 ∷ []) self named.0) }
    {
        let mut work = self;
        let atom = work.fresh.next();
        let body = LitList::from_slice(work.alloc, lits)?;
        work.rules.push(Rule {
            head: Head::One(atom),
            body: Body::All(body),
        })?;
        Ok((work, Lit::positive(atom)))
    }

    /// With the rules of a block behind the others.
    fn with_block(
        alloc: Global,
        rules: Vec<Rule>,
        complements: Complements,
        net: Network<'_>,
    ) -> Result<Work, Memory>
        requires stage { IsBlock net
            → IsStage (record { rules = rules.items; supply = net.supply; pairs = complements }) }
        ensures is { let block = net.entry in let all = complements in IfOk result (λ work.
            work ≡ record { rules = rules.items ++ block.rules; supply = block.supply; pairs = all }) }
        ensures block { IsBlock net.entry }
    {
        let (block, fresh) = net.into_parts();
        let mut all = rules;
        let mut block = block.into_vec();
        all.append(&mut block)?;
        Ok(Work {
            alloc,
            rules: all,
            fresh,
            complements,
        })
    }

    /// What stands for a sum of weights.
    fn sum(self, body: &Body) -> Result<(Work, Reach), Memory>
        requires room { HasRoomFor (sum_room body.now) self }
        requires sum { IsSum body.now }
        requires fits { BodyFits (λ a. atoms_of self a ≡ true) body.now }
        ensures answers { IfOk result (λ summed. SumAnswers body.now self summed.0 summed.1) }
        ensures spends { IfOk result (λ summed. Spends (sum_room body.now) self summed.0) }
        ensures adds { IfOk result (λ summed.
            AddsAnswer (positives_of_body body.now) (reach_lits summed.1) self summed.0) }
    {
        let Body::Sum { bound, items } = body else {
            unreachable!()
        };
        let Work {
            alloc,
            rules,
            fresh,
            complements,
        } = self;
        let mut net = Network::for_body(alloc, fresh, body);
        let reach = sum_at_least(alloc, &mut net, items.as_slice(), *bound)?;
        Ok((Work::with_block(alloc, rules, complements, net)?, reach))
    }

    /// A choice. Where it has several atoms and its body several literals, a new atom takes the place of the body.
    fn chosen(self, atoms: &[u32], lits: &[Lit]) -> Result<Work, Memory>
        requires room { HasRoomFor (length lits.now + 2 + 6 * length atoms.now) self }
        requires atoms { AllByRecursion (λ a. atoms_of self a ≡ true) atoms.now }
        requires lits { LitsKnown self lits.now }
        ensures turns { IfOk result (λ work. Turns (choice_of atoms.now lits.now ∷ []) self work) }
        ensures spends { IfOk result (λ work. Spends (length lits.now + 2 + 6 * length atoms.now) self work) }
        ensures adds { IfOk result (λ work. Adds atoms.now (positives_of_literals lits.now) self work) }
    {
        if atoms.len() >= 2 && lits.len() >= 2 {
            let (work, lit) = self.name(lits)?;
            work.known();
            return work.choices(atoms, &[lit]);
        }
        self.choices(atoms, lits)
    }

    /// A rule over literals.
    fn over(self, head: &Head, lits: &[Lit]) -> Result<Work, Memory>
        requires room { HasRoomFor (head_term head.now (length lits.now)) self }
        requires head { HeadIn (atoms_of self) head.now }
        requires lits { LitsKnown self lits.now }
        ensures turns { IfOk result (λ work. Turns (rule_over head.now lits.now ∷ []) self work) }
        ensures spends { IfOk result (λ work. Spends (head_term head.now (length lits.now)) self work) }
        ensures adds { IfOk result (λ work. AddsRule (rule_over head.now lits.now) self work) }
        ensures same { IfOk result (λ work. IsNormalHead head.now
            → work ≡ with_rule (rule_over head.now lits.now) self) }
    {
        match head {
            Head::Nothing => self.plain(Head::Nothing, lits),
            Head::One(atom) => self.plain(Head::One(*atom), lits),
            Head::Choice(atoms) => self.chosen(atoms.as_slice(), lits),
        }
    }

    /// A rule over a sum of weights.
    fn summed(self, rule: &Rule) -> Result<Work, Memory>
        requires room { HasRoomFor (term rule.now) self }
        requires sum { IsSum rule.now.body }
        requires fits { RuleFits (λ a. atoms_of self a ≡ true) rule.now }
        ensures turns { IfOk result (λ work. Turns (rule.now ∷ []) self work) }
        ensures spends { IfOk result (λ work. Spends (term rule.now) self work) }
        ensures adds { IfOk result (λ work. AddsRule rule.now self work) }
    {
        let (work, reach) = self.sum(&rule.body)?;
        work.known();
        match reach {
            Reach::Always => work.over(&rule.head, &[]),
            Reach::Never => Ok(work),
            Reach::By(lit) => work.over(&rule.head, &[lit]),
        }
    }

    /// The rules that stand for a rule. A choice without atoms is left out.
    fn rule(self, rule: &Rule) -> Result<Work, Memory>
        requires room { HasRoomFor (term rule.now) self }
        requires fits { RuleFits (λ a. atoms_of self a ≡ true) rule.now }
        ensures turns { IfOk result (λ work. Turns (rule.now ∷ []) self work) }
        ensures spends { IfOk result (λ work. Spends (term rule.now) self work) }
        ensures adds { IfOk result (λ work. AddsRule rule.now self work) }
        ensures same { IfOk result (λ work. IsNormal rule.now → work ≡ with_rule rule.now self) }
        ensures idle { is_idle rule.now.head ≡ true → IfOk result (λ work. work ≡ self) }
    {
        self.known();
        if is_idle(&rule.head) {
            return Ok(self);
        }
        match &rule.body {
            Body::All(lits) => self.over(&rule.head, lits.as_slice()),
            Body::Sum { .. } => self.summed(rule),
        }
    }

    /// The program with these rules in the place of its own.
    pub(crate) fn finish(self, program: &Program) -> Result<Program, Memory>
        requires room { room program.now ≤ 2 ^ 24 }
        requires turns { Turns program.now.rules (start program.now.atoms) self }
        requires spends { Spends (sum_by term program.now.rules) (start program.now.atoms) self }
        ensures is { IfOk result (λ made. made ≡ made_of program.now self) }
        ensures stage { IsStage self }
        ensures facts { IsProgram program.now }
    {
        let alloc = self.alloc;
        program.known();
        let mut atoms = Vec::from_slice(alloc, program.atoms.as_slice())?;
        push_rules(&mut atoms, self.rules.as_slice())?;
        Ok(Program {
            atoms: Atoms::of_vec(alloc, atoms)?,
            rules: RuleList::from_vec(self.rules),
            required: LitList::from_slice(alloc, program.required.as_slice())?,
            edges: copied_edges(alloc, program.edges.as_slice())?,
            levels: copied_levels(alloc, program.levels.as_slice())?,
            shows: copied_shows(alloc, program.shows.as_slice())?,
        })
    }
}

/// The rules that stand for the rules of a program.
pub(crate) fn turned(alloc: Global, program: &Program) -> Result<Work, Memory>
    requires room { room program.now ≤ 2 ^ 24 }
    ensures turns { IfOk result (λ work. Turns program.now.rules (start program.now.atoms) work) }
    ensures spends { IfOk result (λ work. Spends (sum_by term program.now.rules) (start program.now.atoms) work) }
    ensures pieces { IfOk result (λ work. (pieces : List Piece) × (ArePieces program.now.rules pieces)
        × (AreApart program.now.rules pieces) × (work.rules ≡ made_rules pieces)) }
    ensures same { IfOk result (λ work. AreNormal program.now.rules
        → work ≡ record (start program.now.atoms) { rules = program.now.rules }) }
{
    program.known();
    let mut work = Work::new(alloc, program)?;
    for rule in program.rules.as_slice() {
        work = work.rule(rule)?;
    }
    Ok(work)
}
