//! One walk over a graph finds its parts and closes them, with stacks of its own, so that a long path needs no deep
//! calls: the path-based algorithm in Dijkstra's form. Nodes that were found and belong to no closed part stand in a
//! chain, which is cut at bounds; a step back over a bound joins two parts, and a part with no step left is closed. No
//! low-links and no order of finishing are needed. Each round looks at one step and does one thing: linear. (Dijkstra,
//! A Discipline of Programming, 1976, "strongest components"; Gabow, Path-based depth-first search, 2000.)

ghost use Rattle.std.specs.Prelude.{◌≡◌, ℕ, ◌+◌, ◌-◌, ◌<◌, ◌≤◌, ◌^◌, ◌++◌, [], ◌∷◌, false, length, take, drop, set, slice_index, IfOk, OnOk, replicate, None, Some};
ghost use Rattle.std.specs.Option.{is_none};
ghost use Rattle.graph_parts.specs.Graph.{IsGraph};
ghost use Rattle.graph_parts.specs.private.Searching.{Holds, Leading, Searches, Sees, StaysFound, marked, place_at, weight_of};

use asp_base::Memory;
use std::alloc::Global;

/// What is seen at the end of the chain.
#[derive(Clone, Copy)]
pub(crate) enum Look {
    /// No node of the last part has a step that was not looked at.
    Ended,
    /// The last node at work has no further step.
    Spent,
    /// The next step of this node leads to a closed part, or within the last part of the chain.
    Past(u32),
    /// The next step leads to this node, which was not found yet.
    New(u32),
    /// The next step leads back over the last bound.
    Back,
}

/// A search for parts. Nodes that were found and belong to no closed part stand in a chain, which is cut at bounds.
#[derive(Drop)]
pub(crate) struct Search {
    /// For each node the place in the chain where it was found.
    places: Vec<Option<u32>>,
    /// For each node the step that is looked at next.
    at: Vec<u32>,
    /// For each node the number of its part; 0 while that is not closed.
    pub(crate) numbers: Vec<u32>,
    /// The chain.
    nodes: Vec<u32>,
    /// The places where its parts begin.
    bounds: Vec<u32>,
    /// The places of its nodes that may have further steps.
    work: Vec<u32>,
    /// The closed parts.
    pub(crate) count: u32,
}

impl Search {
    /// No node is found.
    pub(crate) fn new(alloc: Global, starts: &[u32]) -> Result<Search, Memory>
        requires { 0 < length starts.now }
        ensures { IfOk result (λ search. Holds search (replicate (length starts.now - 1) None)
            (replicate (length starts.now - 1) 0) starts.now [] [] [] 0) }
    {
        let nodes = starts.len() - 1;
        Ok(Search {
            places: vec![in alloc; None; nodes]?,
            at: starts.to_vec(alloc)?,
            numbers: vec![in alloc; 0; nodes]?,
            nodes: Vec::new(alloc),
            bounds: Vec::new(alloc),
            work: Vec::new(alloc),
            count: 0,
        })
    }

    /// Finds what a node reaches, and closes the parts of it.
    pub(crate) fn explore(
        &mut self,
        starts: &[u32],
        targets: &[u32],
        node: u32,
    ) -> Result<(), Memory>
        requires graph { IsGraph starts.now targets.now }
        requires few { length starts.now ≤ 2 ^ 32 }
        requires searching { Searches starts.now targets.now self.old }
        requires empty { self.old.bounds.items ≡ [] }
        requires node { node + 1 < length starts.now }
        ensures searching { OnOk result (Searches starts.now targets.now self.new) }
        ensures empty { OnOk result (self.new.bounds.items ≡ []) }
        ensures found { OnOk result (is_none (place_at self.new.places.items node) ≡ false) }
        ensures stays { OnOk result (StaysFound self.old.places.items self.new.places.items) }
    {
        match self.places[node as usize] {
            Some(_) => Ok(()),
            None => self.explore_new(starts, targets, node),
        }
    }

    /// Puts a node that was not found into the empty chain, and goes on until the chain is empty again.
    fn explore_new(&mut self, starts: &[u32], targets: &[u32], node: u32) -> Result<(), Memory>
        requires graph { IsGraph starts.now targets.now }
        requires few { length starts.now ≤ 2 ^ 32 }
        requires searching { Searches starts.now targets.now self.old }
        requires empty { self.old.bounds.items ≡ [] }
        requires node { node + 1 < length starts.now }
        requires new { place_at self.old.places.items node ≡ None }
        ensures searching { OnOk result (Searches starts.now targets.now self.new) }
        ensures empty { OnOk result (self.new.bounds.items ≡ []) }
        ensures found { OnOk result (is_none (place_at self.new.places.items node) ≡ false) }
        ensures stays { OnOk result (StaysFound self.old.places.items self.new.places.items) }
    {
        self.open(node)?;
        while !self.bounds.is_empty() {
            self.advance(starts, targets)?;
        }
        Ok(())
    }

    /// One round.
    fn advance(&mut self, starts: &[u32], targets: &[u32]) -> Result<(), Memory>
        requires graph { IsGraph starts.now targets.now }
        requires few { length starts.now ≤ 2 ^ 32 }
        requires searching { Searches starts.now targets.now self.old }
        requires bounds { 0 < length self.old.bounds.items }
        ensures searching { OnOk result (Searches starts.now targets.now self.new) }
        ensures falls { OnOk result (weight_of targets.now self.new < weight_of targets.now self.old) }
        ensures stays { OnOk result (StaysFound self.old.places.items self.new.places.items) }
    {
        let last = self.bounds.len() - 1;
        let bound = self.bounds[last];
        match self.look(starts, targets, bound) {
            Look::Ended => self.close(last, bound),
            Look::Spent => self.spend(),
            Look::Past(node) => self.pass(node),
            Look::New(node) => self.open(node)?,
            Look::Back => self.join(last),
        }
        Ok(())
    }

    /// Sees what comes next behind the last bound.
    fn look(&self, starts: &[u32], targets: &[u32], bound: u32) -> Look
        requires graph { IsGraph starts.now targets.now }
        requires searching { Searches starts.now targets.now self.now }
        ensures { Sees starts.now targets.now self.now bound result }
    {
        let len = self.work.len();
        if len == 0 {
            return Look::Ended;
        }
        let place = self.work[len - 1];
        if place < bound {
            return Look::Ended;
        }
        let node = self.nodes[place as usize];
        let at = self.at[node as usize];
        if at >= starts[node as usize + 1] {
            return Look::Spent;
        }
        self.see(node, targets[at as usize], bound)
    }

    /// Sees where a step leads.
    fn see(&self, node: u32, to: u32, bound: u32) -> Look
        requires places { to < length self.now.places.items }
        requires numbers { to < length self.now.numbers.items }
        ensures { Leading self.now.places.items self.now.numbers.items bound node to result }
    {
        let Some(place) = self.places[to as usize] else {
            return Look::New(to);
        };
        if self.numbers[to as usize] != 0 {
            return Look::Past(node);
        }
        if place < bound {
            Look::Back
        } else {
            Look::Past(node)
        }
    }

    /// Puts a node at the end of the chain, as a part of its own.
    fn open(&mut self, node: u32) -> Result<(), Memory>
        requires node { node < length self.old.places.items }
        requires few { length self.old.nodes.items < 2 ^ 32 }
        ensures { OnOk result (Holds self.new
            (set self.old.places.items node (Some (length self.old.nodes.items)))
            self.old.numbers.items
            self.old.at.items
            (self.old.nodes.items ++ (node ∷ []))
            (self.old.bounds.items ++ (length self.old.nodes.items ∷ []))
            (self.old.work.items ++ (length self.old.nodes.items ∷ []))
            self.old.count) }
    {
        let place = self.nodes.len() as u32;
        self.nodes.push(node)?;
        self.bounds.push(place)?;
        self.work.push(place)?;
        self.places[node as usize] = Some(place);
        Ok(())
    }

    /// Goes on to the next step of a node.
    fn pass(&mut self, node: u32)
        requires node { node < length self.old.at.items }
        requires at { slice_index self.old.at.items node < u32.MAX }
        ensures { Holds self.new
            self.old.places.items
            self.old.numbers.items
            (set self.old.at.items node (slice_index self.old.at.items node + 1))
            self.old.nodes.items
            self.old.bounds.items
            self.old.work.items
            self.old.count }
    {
        self.at[node as usize] += 1;
    }

    /// The last node at work is done with.
    fn spend(&mut self)
        requires { 0 < length self.old.work.items }
        ensures { Holds self.new
            self.old.places.items
            self.old.numbers.items
            self.old.at.items
            self.old.nodes.items
            self.old.bounds.items
            (take (length self.old.work.items - 1) self.old.work.items)
            self.old.count }
    {
        let last = self.work.len() - 1;
        self.work.truncate(last);
    }

    /// Joins the last two parts of the chain.
    fn join(&mut self, last: usize)
        ensures { Holds self.new
            self.old.places.items
            self.old.numbers.items
            self.old.at.items
            self.old.nodes.items
            (take last self.old.bounds.items)
            self.old.work.items
            self.old.count }
    {
        self.bounds.truncate(last);
    }

    /// Closes the last part of the chain.
    fn close(&mut self, last: usize, bound: u32)
        requires bound { bound ≤ length self.old.nodes.items }
        requires inside { (k : ℕ) → k < length self.old.nodes.items
            → slice_index self.old.nodes.items k < length self.old.numbers.items }
        requires count { self.old.count + 1 < 2 ^ 32 }
        ensures { Holds self.new
            self.old.places.items
            (marked self.old.numbers.items (self.old.count + 1) (drop bound self.old.nodes.items))
            self.old.at.items
            (take bound self.old.nodes.items)
            (take last self.old.bounds.items)
            self.old.work.items
            (self.old.count + 1) }
    {
        self.count += 1;
        mark(&mut self.numbers, &self.nodes[bound as usize..], self.count);
        self.nodes.truncate(bound as usize);
        self.bounds.truncate(last);
    }
}

/// Writes a number at each of these nodes.
fn mark(numbers: &mut [u32], nodes: &[u32], number: u32)
    requires { (k : ℕ) → k < length nodes.now → slice_index nodes.now k < length numbers.old }
    ensures { numbers.new ≡ marked numbers.old number nodes.now }
{
    for node in nodes {
        numbers[*node as usize] = number;
    }
}
