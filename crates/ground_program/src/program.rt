//! Ground programs: rules, required literals, edges, levels and shows.

ghost use Rattle.std.specs.Prelude.{◌≡◌, ◌≤◌, ◌^◌, length};
ghost use Rattle.ground_program.specs.Facts.{IsProgram};
ghost use Rattle.ground_program.specs.Normal.{literals_of};

use crate::atoms::Atoms;
use crate::lists::{AtomList, ItemList, LitList};
use asp_base::{ByteList, Lit, VecList};
use std::marker::Model;

/// What a rule derives: nothing, one atom, or any of the atoms of a choice.
#[derive(Drop)]
pub enum Head {
    Nothing,
    One(u32),
    Choice(AtomList),
}

/// What a rule asks: all of the literals, or that the weights of those that hold reach the bound.
#[derive(Drop)]
pub enum Body {
    All(LitList),
    Sum { bound: i64, items: ItemList },
}

/// The literals of a body of literals; none of a body with weights.
pub fn literals(body: &Body) -> &[Lit]
    ensures { result.now ≡ literals_of body.now }
{
    match body {
        Body::All(lits) => lits.as_slice(),
        Body::Sum { .. } => &[],
    }
}

/// A rule. A rule without head may not have its body hold.
#[derive(Drop)]
pub struct Rule {
    pub head: Head,
    pub body: Body,
}

/// An edge of the acyclicity condition, which is there where its condition holds.
#[derive(Drop)]
pub struct Edge {
    pub from: i32,
    pub to: i32,
    pub condition: LitList,
}

/// What is minimized at a priority.
#[derive(Drop)]
pub struct Level {
    pub priority: i32,
    pub items: ItemList,
}

/// A name that is shown where its condition holds.
#[derive(Drop)]
pub struct Show {
    pub name: ByteList,
    pub condition: LitList,
}

/// Rules.
pub type RuleList = VecList<Rule>;

/// Edges.
pub type EdgeList = VecList<Edge>;

/// Levels.
pub type LevelList = VecList<Level>;

/// Shows.
pub type ShowList = VecList<Show>;

/// A ground program. Its atoms rise, each is from 1 to 2^30, and every atom that occurs is among them;
/// each head, body and condition has at most 2^24 entries; body weights are not negative, and no weight or
/// bound is of a magnitude above 2^31 - 1; priorities fall; no name has a line feed.
#[derive(Drop)]
pub struct Program {
    pub atoms: Atoms,
    pub rules: RuleList,
    pub required: LitList,
    pub edges: EdgeList,
    pub levels: LevelList,
    pub shows: ShowList,
}

impl Model for Program {
    ghost use Rattle.ground_program.specs.Ground.{Ground};
    ghost use Rattle.ground_program.specs.Facts.{IsProgram};
    ghost use Rattle.ground_program.specs.private.Inside.{ground_of};

    ghost Value = { Ground };

    ghost view = { ground_of };

    ghost invariant = { λ p. IsProgram (ground_of p) };
}

impl Program {
    /// Nothing: a caller learns that what is true of every program is true of this one.
    pub fn known(&self)
        ensures facts { IsProgram self.now }
        ensures few { length self.now.atoms ≤ 2 ^ 30 }
    {
        let _rules = &self.rules;
    }
}
