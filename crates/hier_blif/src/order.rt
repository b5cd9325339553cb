//! The models of a file, each after those that it has instances of, by a depth-first search. The stack is a list and
//! not the program's own, since a chain of a million models is a file like any other.

ghost use Rattle.std.specs.Prelude.{◌≡◌, ◌≢◌, ◌<◌, ◌-◌, ◌++◌, ◌∷◌, ℕ, [], List, Some, None, All, Contains, length};
ghost use Rattle.std.specs.Prelude.{take, replicate, vec_len, slice_set, IfOk, IfErr, OnOk};
ghost use Rattle.std.specs.List.{flat_map};
ghost use Rattle.hier_blif.specs.declared.model.BlifModel.{BlifModel as AnyModel};
ghost use Rattle.hier_blif.specs.declared.order.Call.{Call as AnyCall};
ghost use Rattle.hier_blif.specs.Stops.{IsStopBy};
ghost use Rattle.hier_blif.specs.Names.{instances_on, all_instances, model_of};
ghost use Rattle.hier_blif.specs.Depths.{HasDepth};
ghost use Rattle.hier_blif.specs.Scopes.{IsScope};
ghost use Rattle.hier_blif.specs.Order.{place_of, callees_on, callees, callees_at, AreThere, IsBottomUp};
ghost use Rattle.hier_blif.specs.Order.{IsRecursionAt, IsRecursionAmong, left, visit_of, Knows, IsUnderWay, IsReady};
ghost use Rattle.hier_blif.specs.Order.{Grows, Explores, IsCall};

use crate::fault::{HierKind, HierStop, fault_at};
use crate::model::{InstanceLine, ModelLine};
use crate::names::Scope;
use std::alloc::{AllocError, Global};

/// The models by their places, each after those that it has instances of. The fault is at the first instance whose
/// model has no depth.
pub(crate) fn order_models(alloc: Global, scope: &Scope<'_, '_>) -> Result<Vec<usize>, HierStop>
    requires scope { IsScope scope.now }
    requires there { AreThere scope.now.models.now }
    ensures order { IfOk result (λ order. IsBottomUp scope.now.models.now order.items) }
    ensures deep { IfOk result (λ _. All (λ line. HasDepth scope.now.models.now (model_of scope.now.models.now line))
        (all_instances scope.now.models.now)) }
    ensures fault { IfErr result
        (IsStopBy (IsRecursionAmong scope.now.models.now (all_instances scope.now.models.now))) }
{
    let mut search = ModelSearch::new(alloc, scope.models.len())?;
    for (place, model) in scope.models.iter().enumerate() {
        search.explore_all(scope, &model.lines)?;
        search.list_new(place)?;
    }
    let ModelSearch {
        visits: _,
        looked: _,
        stack: _,
        order,
    } = search;
    Ok(order)
}

/// How far the search has come at a model.
#[derive(Clone, Copy, Drop)]
enum Visit {
    /// The model was not met yet.
    New,
    /// The model is on the stack: the models of its instances are searched.
    Open,
    /// The model is in the order.
    Listed,
}

/// A line of a model that has an instance of another one.
#[derive(Clone, Copy, Drop)]
struct Call {
    /// The line's place in the model.
    line: usize,
    /// The place of the model that it has an instance of.
    callee: usize,
}

/// A depth-first search over the models of a file: what is known of each, and the way from the root to where the search
/// is.
#[derive(Drop)]
struct ModelSearch {
    visits: Vec<Visit>,
    /// For each model how many of its lines were looked at: these have instances of models in the order alone.
    looked: Vec<usize>,
    /// The models on the way, each with an instance of the next.
    stack: Vec<usize>,
    /// The models that were left, each after those that it has instances of.
    order: Vec<usize>,
}

impl ModelSearch {
    /// No model of so many was met.
    fn new(alloc: Global, count: usize) -> Result<ModelSearch, AllocError>
        ensures visits { IfOk result (λ search. search.visits.items ≡ replicate count Visit.New) }
        ensures looked { IfOk result (λ search. search.looked.items ≡ replicate count 0) }
        ensures stack { IfOk result (λ search. search.stack.items ≡ []) }
        ensures order { IfOk result (λ search. search.order.items ≡ []) }
    {
        Ok(ModelSearch {
            visits: vec![in alloc; Visit::New; count]?,
            looked: vec![in alloc; 0; count]?,
            stack: Vec::new(alloc),
            order: Vec::new(alloc),
        })
    }

    /// The model that a line has an instance of, if it isn't in the order.
    fn unlisted_on(&self, scope: &Scope<'_, '_>, line: &ModelLine<'_>) -> Option<usize>
        requires scope { IsScope scope.now }
        requires there { All (λ callee. callee < vec_len self.now.visits) (callees_on scope.now.models.now line.now) }
        ensures some { (place : ℕ) → result ≡ Some place
            → (Contains (callees_on scope.now.models.now line.now) place)
            × (visit_of self.now.visits.items place ≢ Visit.Listed) }
        ensures none { result ≡ None
            → All (λ callee. visit_of self.now.visits.items callee ≡ Visit.Listed)
            (callees_on scope.now.models.now line.now) }
    {
        let ModelLine::Instance(instance) = line else {
            return None;
        };
        let place = scope.place_of(instance);
        match self.visits[place] {
            Visit::Listed => None,
            _ => Some(place),
        }
    }

    /// The first line of a model that has an instance of one that isn't in the order, and that one. Lines are looked at
    /// from where the search left the model, so that each is looked at twice at most.
    fn next_call(&self, scope: &Scope<'_, '_>, place: usize) -> Option<Call>
        requires scope { IsScope scope.now }
        requires models { AreThere scope.now.models.now }
        requires knows { Knows scope.now.models.now self.now.visits.items self.now.looked.items self.now.stack.items
            self.now.order.items }
        requires there { place < length scope.now.models.now }
        ensures some { (call : AnyCall) → result ≡ Some call
            → IsCall scope.now.models.now self.now.visits.items self.now.order.items place call }
        ensures none { result ≡ None
            → All (Contains self.now.order.items) (callees_at scope.now.models.now place) }
    {
        let lines = &scope.models[place].lines;
        for line in self.looked[place]..lines.len() {
            if let Some(callee) = self.unlisted_on(scope, &lines[line]) {
                return Some(Call { line, callee });
            }
        }
        None
    }

    /// Puts a model that was not met yet on the stack.
    fn enter(&mut self, place: usize) -> Result<(), AllocError>
        requires { place < vec_len self.old.visits }
        ensures visits { OnOk result
            (self.new.visits.items ≡ slice_set self.old.visits.items place Visit.Open) }
        ensures stack { OnOk result (self.new.stack.items ≡ self.old.stack.items ++ place ∷ []) }
        ensures looked { self.new.looked.items ≡ self.old.looked.items }
        ensures order { self.new.order.items ≡ self.old.order.items }
    {
        self.visits[place] = Visit::Open;
        self.stack.push(place)?;
        Ok(())
    }

    /// Puts a model in the order.
    fn list(&mut self, place: usize) -> Result<(), AllocError>
        requires { place < vec_len self.old.visits }
        ensures visits { OnOk result
            (self.new.visits.items ≡ slice_set self.old.visits.items place Visit.Listed) }
        ensures stack { self.new.stack.items ≡ self.old.stack.items }
        ensures looked { self.new.looked.items ≡ self.old.looked.items }
        ensures order { OnOk result (self.new.order.items ≡ self.old.order.items ++ place ∷ []) }
    {
        self.visits[place] = Visit::Listed;
        self.order.push(place)?;
        Ok(())
    }

    /// Takes the model on top off the stack, and puts it in the order.
    fn close(&mut self, place: usize) -> Result<(), AllocError>
        requires { place < vec_len self.old.visits }
        ensures visits { OnOk result
            (self.new.visits.items ≡ slice_set self.old.visits.items place Visit.Listed) }
        ensures stack { OnOk result
            (self.new.stack.items ≡ take (length self.old.stack.items - 1) self.old.stack.items) }
        ensures looked { self.new.looked.items ≡ self.old.looked.items }
        ensures order { OnOk result (self.new.order.items ≡ self.old.order.items ++ place ∷ []) }
    {
        let _ = self.stack.pop();
        self.list(place)
    }

    /// Notes how far the model on top was looked at, and puts the one that it has an instance of above it.
    fn descend(&mut self, place: usize, call: Call) -> Result<(), AllocError>
        requires there { place < vec_len self.old.looked }
        requires callee { call.callee < vec_len self.old.visits }
        ensures visits { OnOk result
            (self.new.visits.items ≡ slice_set self.old.visits.items call.callee Visit.Open) }
        ensures stack { OnOk result (self.new.stack.items ≡ self.old.stack.items ++ call.callee ∷ []) }
        ensures looked { OnOk result (self.new.looked.items ≡ slice_set self.old.looked.items place call.line) }
        ensures order { self.new.order.items ≡ self.old.order.items }
    {
        self.looked[place] = call.line;
        self.enter(call.callee)
    }

    /// One step of the search from the model of an instance. Where it leads back to a model on the stack, the root has
    /// no depth.
    fn advance(&mut self, scope: &Scope<'_, '_>, root: &InstanceLine<'_>) -> Result<(), HierStop>
        requires scope { IsScope scope.now }
        requires models { AreThere scope.now.models.now }
        requires under_way { IsUnderWay scope.now.models.now (place_of scope.now.models.now root.now) self.old }
        requires more { 0 < vec_len self.old.stack }
        ensures under_way { OnOk result
            (IsUnderWay scope.now.models.now (place_of scope.now.models.now root.now) self.new) }
        ensures less { OnOk result
            (left self.new.visits.items self.new.stack.items < left self.old.visits.items self.old.stack.items) }
        ensures grows { OnOk result (Grows self.old.order.items self.new.order.items) }
        ensures fault { IfErr result (IsStopBy (IsRecursionAt scope.now.models.now root.now)) }
    {
        let place = self.stack[self.stack.len() - 1];
        let Some(call) = self.next_call(scope, place) else {
            self.close(place)?;
            return Ok(());
        };
        match self.visits[call.callee] {
            Visit::New => self.descend(place, call)?,
            _ => return Err(fault_at(root.at, HierKind::Recursion)),
        }
        Ok(())
    }

    /// Lists the model of an instance, after all that it has instances of.
    fn explore(&mut self, scope: &Scope<'_, '_>, line: &InstanceLine<'_>) -> Result<(), HierStop>
        requires scope { IsScope scope.now }
        requires models { AreThere scope.now.models.now }
        requires there { place_of scope.now.models.now line.now < length scope.now.models.now }
        requires ready { IsReady scope.now.models.now self.old }
        ensures listed { OnOk result (Explores scope.now.models.now
            (place_of scope.now.models.now line.now ∷ []) self.old self.new) }
        ensures fault { IfErr result (IsStopBy (IsRecursionAt scope.now.models.now line.now)) }
    {
        let place = scope.place_of(line);
        let Visit::New = self.visits[place] else {
            return Ok(());
        };
        self.enter(place)?;
        while !self.stack.is_empty() {
            self.advance(scope, line)?;
        }
        Ok(())
    }

    /// Lists the models that lines have instances of.
    fn explore_all(
        &mut self,
        scope: &Scope<'_, '_>,
        lines: &[ModelLine<'_>],
    ) -> Result<(), HierStop>
        requires scope { IsScope scope.now }
        requires models { AreThere scope.now.models.now }
        requires there { All (λ callee. callee < length scope.now.models.now) (callees scope.now.models.now lines.now) }
        requires ready { IsReady scope.now.models.now self.old }
        ensures listed { OnOk result
            (Explores scope.now.models.now (callees scope.now.models.now lines.now) self.old self.new) }
        ensures fault { IfErr result
            (IsStopBy (IsRecursionAmong scope.now.models.now (flat_map instances_on lines.now))) }
    {
        for line in lines.iter() {
            self.explore_line(scope, line)?;
        }
        Ok(())
    }

    fn explore_line(&mut self, scope: &Scope<'_, '_>, line: &ModelLine<'_>) -> Result<(), HierStop>
        requires scope { IsScope scope.now }
        requires models { AreThere scope.now.models.now }
        requires there { All (λ callee. callee < length scope.now.models.now)
            (callees_on scope.now.models.now line.now) }
        requires ready { IsReady scope.now.models.now self.old }
        ensures listed { OnOk result
            (Explores scope.now.models.now (callees_on scope.now.models.now line.now) self.old self.new) }
        ensures fault { IfErr result
            (IsStopBy (IsRecursionAmong scope.now.models.now (instances_on line.now))) }
    {
        match line {
            ModelLine::Instance(instance) => self.explore(scope, instance),
            _ => Ok(()),
        }
    }

    /// Lists a model after all that it has instances of, unless it is listed.
    fn list_new(&mut self, place: usize) -> Result<(), AllocError>
        requires there { place < vec_len self.old.visits }
        ensures { (models : List AnyModel)
            → IsReady models self.old
            → All (Contains self.old.order.items) (callees_at models place)
            → OnOk result (Explores models (place ∷ []) self.old self.new) }
    {
        if let Visit::New = self.visits[place] {
            self.list(place)?;
        }
        Ok(())
    }
}
