//! A depth-first search with a stack of its own, so that a long path needs no deep calls. An edge to a node on the path
//! closes a cycle; a node whose edges are all looked at is done. Each edge is looked at once: linear after the sort,
//! but for the halving that finds a node. (Tarjan, Depth-first search and linear graph algorithms, SIAM J. Comput. 1,
//! 1972; Cormen, Leiserson, Rivest, Stein, Introduction to Algorithms, "Depth-first search".)

ghost use Rattle.std.specs.Prelude.{◌≡◌, ℕ, ◌+◌, ◌<◌, ◌≤◌, ℤ, [], ◌∷◌, ◌++◌, false, length, take, drop, map, set, None, IsNone, IfSome, IfOk, OnOk, replicate};
ghost use Rattle.asp_base.specs.Walks.{Acyclic};
ghost use Rattle.graph_cycles.specs.private.Arcs.{Ascends, Starts, arc_at};
ghost use Rattle.graph_cycles.specs.Cycle.{leads};
ghost use Rattle.graph_cycles.specs.private.Loop.{IsLoop};
ghost use Rattle.graph_cycles.specs.private.Searching.{Descends, IsFound, Looked, Settled, StaysSeen, is_unseen, mark_at, node_of, weight_of};

use crate::arcs::start_of;
use asp_base::Memory;
use std::alloc::Global;

/// What a search knows of a node.
#[derive(Clone, Copy)]
pub(crate) enum Mark {
    Unseen,
    /// It is on the path, at this place.
    OnPath(usize),
    /// No walk from it comes back to itself.
    Done,
}

/// A node on the path: where its edges begin, and the edge that is looked at.
#[derive(Clone, Copy)]
pub(crate) struct Step {
    start: usize,
    at: usize,
}

/// What is seen at a step.
#[derive(Clone, Copy)]
pub(crate) enum Look {
    /// No edge is left.
    Ended,
    /// The edge leads to a node that is done, or has no edges.
    Past,
    /// The edge leads to an unseen node, whose edges begin here.
    New(usize),
    /// The edge leads back to this place of the path.
    Back(usize),
}

/// A search: the marks of the nodes, each at the place where the edges from it begin, and the path.
#[derive(Drop)]
pub(crate) struct Descent {
    marks: Vec<Mark>,
    path: Vec<Step>,
}

/// The nodes of a cycle of the graph whose sorted edges these are; None exactly where there is none.
pub(crate) fn search(alloc: Global, arcs: &[(i32, i32)]) -> Result<Option<Vec<i32>>, Memory>
    requires { Ascends arcs.now }
    ensures none { IfOk result (λ found. IsNone found → Acyclic (leads arcs.now)) }
    ensures cycle { IfOk result (λ found. IfSome found (λ nodes. IsLoop (leads arcs.now) nodes.items)) }
{
    let mut descent = Descent::new(alloc, arcs.len())?;
    for arc in arcs {
        if let Some(place) = descent.explore(arcs, arc.0)? {
            return Ok(Some(nodes_from(alloc, arcs, descent.path.as_slice(), place)?));
        }
    }
    Ok(None)
}

/// The nodes of a path from a place on.
fn nodes_from(
    alloc: Global,
    arcs: &[(i32, i32)],
    path: &[Step],
    place: usize,
) -> Result<Vec<i32>, Memory>
    requires { IsFound arcs.now path.now place }
    ensures { IfOk result (λ nodes. nodes.items ≡ drop place (map (node_of arcs.now) path.now)) }
{
    let mut nodes = Vec::new(alloc);
    for step in &path[place..] {
        nodes.push(arcs[step.start].0)?;
    }
    Ok(nodes)
}

impl Descent {
    /// No node is seen.
    fn new(alloc: Global, count: usize) -> Result<Descent, Memory>
        ensures marks { IfOk result (λ descent. descent.marks.items ≡ replicate count Mark.Unseen) }
        ensures path { IfOk result (λ descent. descent.path.items ≡ []) }
    {
        Ok(Descent {
            marks: vec![in alloc; Mark::Unseen; count]?,
            path: Vec::new(alloc),
        })
    }

    /// Follows the edges from a node until it is settled, or the path meets itself at a place.
    fn explore(&mut self, arcs: &[(i32, i32)], node: i32) -> Result<Option<usize>, Memory>
        requires sorted { Ascends arcs.now }
        requires searching { Descends arcs.now self.old }
        requires empty { self.old.path.items ≡ [] }
        ensures searching { IfOk result (λ found. IsNone found → Descends arcs.now self.new) }
        ensures empty { IfOk result (λ found. IsNone found → self.new.path.items ≡ []) }
        ensures settled { IfOk result (λ found. IsNone found → Settled arcs.now self.new.marks.items node) }
        ensures stays { IfOk result (λ found. IsNone found → (other : ℤ)
            → Settled arcs.now self.old.marks.items other → Settled arcs.now self.new.marks.items other) }
        ensures found { IfOk result (λ found. IfSome found (λ place. IsFound arcs.now self.new.path.items place)) }
    {
        let Some(start) = start_of(arcs, node) else {
            return Ok(None);
        };
        match self.marks[start] {
            Mark::Unseen => self.descend(arcs, start),
            _ => Ok(None),
        }
    }

    /// Puts a node on the empty path, and goes on until the path is empty again, or meets itself at a place.
    fn descend(&mut self, arcs: &[(i32, i32)], start: usize) -> Result<Option<usize>, Memory>
        requires sorted { Ascends arcs.now }
        requires searching { Descends arcs.now self.old }
        requires empty { self.old.path.items ≡ [] }
        requires starts { Starts arcs.now (arc_at arcs.now start).0 start }
        requires unseen { mark_at self.old.marks.items start ≡ Mark.Unseen }
        ensures searching { IfOk result (λ found. IsNone found → Descends arcs.now self.new) }
        ensures empty { IfOk result (λ found. IsNone found → self.new.path.items ≡ []) }
        ensures start { IfOk result (λ found. IsNone found → is_unseen (mark_at self.new.marks.items start) ≡ false) }
        ensures stays { IfOk result (λ found. IsNone found → StaysSeen self.old.marks.items self.new.marks.items) }
        ensures found { IfOk result (λ found. IfSome found (λ place. IsFound arcs.now self.new.path.items place)) }
    {
        self.open(start)?;
        while !self.path.is_empty() {
            if let Some(place) = self.advance(arcs)? {
                return Ok(Some(place));
            }
        }
        Ok(None)
    }

    /// One round: looks at the edge at the end of the path. The place where the path meets itself, if it does.
    fn advance(&mut self, arcs: &[(i32, i32)]) -> Result<Option<usize>, Memory>
        requires sorted { Ascends arcs.now }
        requires searching { Descends arcs.now self.old }
        requires path { 0 < length self.old.path.items }
        ensures searching { IfOk result (λ found. IsNone found → Descends arcs.now self.new) }
        ensures falls { IfOk result
            (λ found. IsNone found → weight_of arcs.now self.new < weight_of arcs.now self.old) }
        ensures seen { IfOk result (λ found. StaysSeen self.old.marks.items self.new.marks.items) }
        ensures found { IfOk result (λ found. IfSome found (λ place. IsFound arcs.now self.new.path.items place)) }
    {
        let last = self.path.len() - 1;
        let step = self.path[last];
        match self.look(arcs, step) {
            Look::Ended => self.close(last, step),
            Look::Past => self.pass(last, step),
            Look::New(start) => self.open(start)?,
            Look::Back(place) => return Ok(Some(place)),
        }
        Ok(None)
    }

    /// Sees where the edge that a step looks at leads.
    fn look(&self, arcs: &[(i32, i32)], step: Step) -> Look
        requires sorted { Ascends arcs.now }
        requires sized { length self.now.marks.items ≡ length arcs.now }
        requires start { step.start < length arcs.now }
        requires begun { step.start ≤ step.at }
        ensures { Looked arcs.now self.now.marks.items step result }
    {
        if step.at >= arcs.len() || arcs[step.at].0 != arcs[step.start].0 {
            return Look::Ended;
        }
        let Some(start) = start_of(arcs, arcs[step.at].1) else {
            return Look::Past;
        };
        match self.marks[start] {
            Mark::Unseen => Look::New(start),
            Mark::OnPath(place) => Look::Back(place),
            Mark::Done => Look::Past,
        }
    }

    /// Puts a node at the end of the path.
    fn open(&mut self, start: usize) -> Result<(), Memory>
        requires { start < length self.old.marks.items }
        ensures marks { OnOk result
            (self.new.marks.items ≡ set self.old.marks.items start (Mark.OnPath (length self.old.path.items))) }
        ensures path { OnOk result
            (self.new.path.items ≡ self.old.path.items ++ (record { start = start; at = start } ∷ [])) }
    {
        let place = self.path.len();
        self.path.push(Step { start, at: start })?;
        self.marks[start] = Mark::OnPath(place);
        Ok(())
    }

    /// Takes the last step off the path; its node is done.
    fn close(&mut self, last: usize, step: Step)
        requires path { length self.old.path.items ≡ last + 1 }
        requires start { step.start < length self.old.marks.items }
        ensures marks { self.new.marks.items ≡ set self.old.marks.items step.start Mark.Done }
        ensures path { self.new.path.items ≡ take last self.old.path.items }
    {
        self.marks[step.start] = Mark::Done;
        self.path.truncate(last);
    }

    /// Goes on to the next edge of the last step.
    fn pass(&mut self, last: usize, step: Step)
        requires path { length self.old.path.items ≡ last + 1 }
        requires at { step.at < usize.MAX }
        ensures marks { self.new.marks.items ≡ self.old.marks.items }
        ensures path { self.new.path.items
            ≡ set self.old.path.items last (record { start = step.start; at = step.at + 1 }) }
    {
        self.path[last] = Step {
            start: step.start,
            at: step.at + 1,
        };
    }
}
