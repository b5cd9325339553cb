//! The levels of a netlist's definitions, found by a depth-first search. The stack is a list and not the
//! program's own, since a chain of a million definitions is a netlist like any other.

ghost use Rattle.std.specs.Prelude.{◌≡◌, ◌+◌, ◌-◌, ◌<◌, [], ◌∷◌, ◌++◌, length, take, vec_len, slice_set, IfOk, IfErr};
ghost use Rattle.circuits.specs.Circuits.{signals_in};
ghost use Rattle.net_core.specs.Search.{IsUnderWay, IsReady, IsLooked, Knows, IsEdge, IsNextEvent, IsFaultAt};
ghost use Rattle.net_core.specs.Search.{IsFaultOf, AreAllFound, left, positions};
ghost use Rattle.net_core.specs.Orders.{AreLevels};

use crate::order_fault::OrderFault;
use crate::plain_net::PlainNet;
use std::alloc::{AllocError, Global};

/// How far the search has come at a definition.
#[derive(Clone, Copy, Drop)]
enum Visit {
    /// It was not met yet.
    New,
    /// It is on the stack: what it names is looked at.
    Open,
    /// Its level is known.
    Level(u32),
}

/// A definition on the stack, and how far it was looked at.
#[derive(Clone, Copy, Drop)]
struct Frame {
    position: usize,
    /// The first of its names that was not looked at.
    next: usize,
    /// The greatest level of the names before.
    highest: u32,
}

/// What kind of edge of the depth-first search leads to a name.
enum Edge {
    /// To what has its level.
    Finished(u32),
    /// To the definition at this position, which was not met yet.
    Tree(usize),
    /// To a definition on the stack, so that there is a cycle.
    Back,
}

/// What the search meets next at a definition on the stack.
enum SearchEvent {
    /// A name that leads on: the definition at this place is looked at first, and then this one from where the frame
    /// says.
    Enter { place: usize, looked: Frame },
    /// The end of its names: the definition has this level, and is left.
    Close(u32),
    /// A name that leads back to a definition on the stack.
    Loop,
}

/// A depth-first search: what is known of each definition, and the way from the root to where the search is.
#[derive(Drop)]
struct DepthFirstSearch {
    visits: Vec<Visit>,
    stack: Vec<Frame>,
}

impl DepthFirstSearch {
    /// The edge that leads to a signal. The constant and the inputs have level 0.
    fn edge_to(&self, net: &PlainNet, signal: u32) -> Edge
        requires there { signal < signals_in net.now }
        requires knows { Knows net.now self.now.visits.items (positions self.now.stack.items) }
        ensures { IsEdge net.now self.now.visits.items (positions self.now.stack.items) signal result }
    {
        let first = net.inputs() as usize + 1;
        let signal = signal as usize;
        if signal < first {
            return Edge::Finished(0);
        }
        match self.visits[signal - first] {
            Visit::New => Edge::Tree(signal - first),
            Visit::Open => Edge::Back,
            Visit::Level(level) => Edge::Finished(level),
        }
    }

    /// What is to be done next at a definition on the stack. Its names are looked at from where the frame
    /// says, so that each is looked at twice at most.
    fn next_event(&self, net: &PlainNet, frame: Frame) -> SearchEvent
        requires there { frame.position < length net.now.defs }
        requires looked { IsLooked net.now (left self.now.visits.items (positions self.now.stack.items)) frame }
        requires knows { Knows net.now self.now.visits.items (positions self.now.stack.items) }
        ensures { IsNextEvent net.now self.now.visits.items (positions self.now.stack.items) frame.position result }
    {
        let def = net.def_at(frame.position);
        let mut highest = frame.highest;
        for next in frame.next..def.names() {
            let level = match self.edge_to(net, def.name(next)) {
                Edge::Finished(level) => level,
                Edge::Tree(place) => {
                    let looked = Frame {
                        position: frame.position,
                        next,
                        highest,
                    };
                    return SearchEvent::Enter { place, looked };
                }
                Edge::Back => return SearchEvent::Loop,
            };
            highest = highest.max(level);
        }
        SearchEvent::Close(highest + 1)
    }

    /// Puts a definition that was not met yet on the stack.
    fn enter(&mut self, position: usize) -> Result<(), OrderFault>
        requires { position < vec_len self.old.visits }
        ensures visits { IfOk result
            (λ _. self.new.visits.items ≡ slice_set self.old.visits.items position Visit.Open) }
        ensures stack { IfOk result
            (λ _. self.new.stack.items
            ≡ self.old.stack.items ++ record { position = position; next = 0; highest = 0 } ∷ []) }
        ensures err { IfErr result (λ fault. fault ≡ OrderFault.Memory) }
    {
        self.visits[position] = Visit::Open;
        self.stack.push(Frame {
            position,
            next: 0,
            highest: 0,
        })?;
        Ok(())
    }

    /// Notes how far the definition on top was looked at, and puts one that it names above it.
    fn descend(&mut self, looked: Frame, place: usize) -> Result<(), OrderFault>
        requires there { place < vec_len self.old.visits }
        requires more { 0 < vec_len self.old.stack }
        ensures visits { IfOk result
            (λ _. self.new.visits.items ≡ slice_set self.old.visits.items place Visit.Open) }
        ensures stack { IfOk result
            (λ _. self.new.stack.items
            ≡ slice_set self.old.stack.items (length self.old.stack.items - 1) looked
            ++ record { position = place; next = 0; highest = 0 } ∷ []) }
        ensures err { IfErr result (λ fault. fault ≡ OrderFault.Memory) }
    {
        let top = self.stack.len() - 1;
        self.stack[top] = looked;
        self.enter(place)
    }

    /// Takes the definition on top, whose level is found, off the stack.
    fn close(&mut self, position: usize, level: u32)
        requires { position < vec_len self.old.visits }
        ensures visits { self.new.visits.items ≡ slice_set self.old.visits.items position (Visit.Level level) }
        ensures stack { self.new.stack.items
            ≡ take (length self.old.stack.items - 1) self.old.stack.items }
    {
        self.visits[position] = Visit::Level(level);
        let _ = self.stack.pop();
    }

    /// One step of the search from a root.
    fn advance(&mut self, net: &PlainNet, root: u32) -> Result<(), OrderFault>
        requires under_way { IsUnderWay net.now root self.old.visits.items self.old.stack.items }
        requires more { 0 < vec_len self.old.stack }
        ensures under_way { IfOk result
            (λ _. IsUnderWay net.now root self.new.visits.items self.new.stack.items) }
        ensures less { IfOk result
            (λ _. left self.new.visits.items (positions self.new.stack.items)
            < left self.old.visits.items (positions self.old.stack.items)) }
        ensures fault { IfErr result (IsFaultAt net.now root) }
    {
        let frame = self.stack[self.stack.len() - 1];
        match self.next_event(net, frame) {
            SearchEvent::Enter { place, looked } => self.descend(looked, place)?,
            SearchEvent::Close(level) => self.close(frame.position, level),
            SearchEvent::Loop => return Err(OrderFault::Cycle(root)),
        }
        Ok(())
    }

    /// Finds the level of a definition, and of all that it stands on.
    fn explore(&mut self, net: &PlainNet, root: u32) -> Result<(), OrderFault>
        requires there { root < length net.now.defs }
        requires ready { IsReady net.now root self.old.visits.items self.old.stack.items }
        ensures ready { IfOk result
            (λ _. IsReady net.now (root + 1) self.new.visits.items self.new.stack.items) }
        ensures fault { IfErr result (IsFaultAt net.now root) }
    {
        let Visit::New = self.visits[root as usize] else {
            return Ok(());
        };
        self.enter(root as usize)?;
        while !self.stack.is_empty() {
            self.advance(net, root)?;
        }
        Ok(())
    }
}

/// A definition and its level. They are compared by level, then by position.
#[derive(Clone, Copy, Debug, Drop, PartialEq, Eq, PartialOrd, Ord)]
pub(crate) struct Placed {
    pub(crate) level: u32,
    pub(crate) position: u32,
}

/// The level of each definition, in the order in which they stand.
pub(crate) fn find_levels(alloc: Global, net: &PlainNet) -> Result<Vec<Placed>, OrderFault>
    ensures levels { IfOk result (λ placed. AreLevels net.now placed.items) }
    ensures fault { IfErr result (IsFaultOf net.now) }
{
    let visits = visit_all(alloc, net)?;
    place_all(alloc, net, &visits)
}

/// Searches from each definition, in the order in which they stand.
fn visit_all(alloc: Global, net: &PlainNet) -> Result<Vec<Visit>, OrderFault>
    ensures entries { IfOk result (λ visits. vec_len visits ≡ length net.now.defs) }
    ensures levels { IfOk result (λ visits. AreAllFound net.now visits.items) }
    ensures fault { IfErr result (IsFaultOf net.now) }
{
    let count = net.defs().len();
    let mut search = DepthFirstSearch {
        visits: vec![in alloc; Visit::New; count]?,
        stack: Vec::new(alloc),
    };
    for root in 0..count as u32 {
        search.explore(net, root)?;
    }
    let DepthFirstSearch { visits, stack: _ } = search;
    Ok(visits)
}

/// Lists the levels that were found.
fn place_all(alloc: Global, net: &PlainNet, visits: &[Visit]) -> Result<Vec<Placed>, OrderFault>
    requires entries { length visits.now ≡ length net.now.defs }
    requires found { AreAllFound net.now visits.now }
    ensures levels { IfOk result (λ placed. AreLevels net.now placed.items) }
    ensures fault { IfErr result (λ fault. fault ≡ OrderFault.Memory) }
{
    let count = net.defs().len();
    let mut placed = Vec::with_capacity(alloc, count)?;
    for position in 0..count {
        // Each definition was a root or met from one, and is left with a level where no cycle is found.
        let Visit::Level(level) = visits[position] else {
            unreachable!()
        };
        placed.push(Placed {
            level,
            position: position as u32,
        })?;
    }
    Ok(placed)
}
