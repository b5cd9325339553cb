//! The pairs that are assigned and deleted, in order.

ghost use Rattle.std.specs.Prelude.{◌≡◌, ◌≢◌, ◌+◌, ◌*◌, ◌^◌, ◌<◌, ◌≤◌, [], ◌∷◌, ◌++◌, AllPairs, Contains, IfNone, IfOk};
ghost use Rattle.std.specs.Prelude.{IfSome, IsTrue, None, OnErr, OnOk, Option, false, length, replicate};
ghost use Rattle.std.specs.Prelude.{slice_index_or, take};
ghost use Rattle.circuits.specs.declared.port.Pair.{Pair as AnyPair};
ghost use Rattle.net_core.specs.declared.graphs.Side.TheVariants.{First, Second};
ghost use Rattle.pair_domains.specs.Kept.{IsPairAt, IsPlaceOf};
ghost use Rattle.pair_domains.specs.Trails.{AreDomains, IsDeleted, IsFreePort, IsOpen, IsPairOf, gone_in, assigned_in};
ghost use Rattle.pair_domains.specs.Trails.{ports_of};
ghost use Rattle.account_core.specs.Assigned.{AreApart};

use crate::entry::{Cause, Entry, Fate, Reason};
use crate::numbers::{pair_number, pairs_of_ports, port_number};
use crate::places::Places;
use crate::tables::{count_at_ports, put_at_ports, uncount_at_ports};
use circuits::{Pair, PortKind};
use net_core::Side;
use std::alloc::{AllocError, Global};
use std::marker::Model;

/// The signed pairs of two circuits with as many ports. Each is open, assigned or deleted. Contracts see those that are
/// assigned or deleted as a list, in the order in which they came to be so, each with what became of it; a pair that
/// isn't in it is open. No two assigned pairs share a port.
///
/// The memory that it takes goes with the square of the ports.
#[derive(Debug, Drop)]
pub struct Domains {
    inputs: u32,
    outputs: u32,
    entries: Vec<Entry>,
    /// Where the entry of each pair stands, by the pair's number.
    places: Places,
    /// The pairs that are assigned, in order.
    pairs: Vec<Pair>,
    /// The assigned pair of each port, by the port's number.
    pairs_at: Vec<Option<Pair>>,
    /// How many pairs of each port are deleted.
    gone: Vec<usize>,
}

impl Model for Domains {
    ghost use Rattle.pair_domains.specs.Trails.{Domained};
    ghost use Rattle.pair_domains.specs.Kept.{IsKept};

    ghost Value = { Domained };

    ghost view = { λ a. record { inputs = a.inputs; outputs = a.outputs; entries = a.entries.items } };

    ghost invariant = { λ a. IsKept a.inputs a.outputs a.entries.items
        a.pairs.items a.places a.pairs_at.items a.gone.items };
}

impl Domains {
    /// All signed pairs of circuits with this many inputs and outputs are open.
    ///
    /// # Errors
    ///
    /// `AllocError` when out of memory, also where the pairs are too many to be numbered.
    pub fn new(alloc: Global, inputs: u32, outputs: u32) -> Result<Domains, AllocError>
        ensures { IfOk result (λ domains. domains ≡ record { inputs = inputs; outputs = outputs; entries = [] }) }
    {
        let Some(count) = pairs_of_ports(inputs, outputs) else {
            return Err(AllocError);
        };
        let ports = 2 * inputs as usize + 2 * outputs as usize;
        let places = Places::new(alloc, count)?;
        let pairs_at = no_pairs(alloc, ports)?;
        let gone = vec![in alloc; 0; ports]?;
        Ok(Domains {
            inputs,
            outputs,
            entries: Vec::new(alloc),
            places,
            pairs: Vec::new(alloc),
            pairs_at,
            gone,
        })
    }

    /// How many ports of a kind either circuit has.
    pub fn ports(&self, kind: PortKind) -> u32
        ensures { result ≡ ports_of self.now.inputs self.now.outputs kind }
    {
        match kind {
            PortKind::Input => self.inputs,
            PortKind::Output => self.outputs,
        }
    }

    /// The pairs that are assigned or deleted, in order, each with what became of it.
    pub fn entries(&self) -> &[Entry]
        ensures value { result.now ≡ self.now.entries }
        ensures lawful { AreDomains self.now }
    {
        self.entries.as_slice()
    }

    /// The pairs that are assigned, in order.
    pub fn pairs(&self) -> &[Pair]
        ensures value { result.now ≡ assigned_in self.now.entries }
        ensures apart { AllPairs AreApart result.now }
    {
        self.pairs.as_slice()
    }

    /// Where the entry of a pair stands, or None exactly where the pair is open.
    pub fn place(&self, pair: Pair) -> Option<usize>
        requires { IsPairOf self.now.inputs self.now.outputs pair }
        ensures { IsPlaceOf self.now.entries pair result }
    {
        let number = pair_number(self.inputs, self.outputs, pair);
        self.places.get(number)
    }

    /// What became of a pair, or None exactly where it is open.
    pub fn fate(&self, pair: Pair) -> Option<Fate>
        requires { IsPairOf self.now.inputs self.now.outputs pair }
        ensures found { IfSome result (λ fate. Contains self.now.entries (record { pair = pair; fate = fate })) }
        ensures none { IfNone result (IsOpen self.now.entries pair) }
    {
        let place = self.place(pair)?;
        Some(self.entries[place].fate)
    }

    /// Why a pair is deleted, or None exactly where it isn't.
    pub fn reason(&self, pair: Pair) -> Option<Reason>
        requires { IsPairOf self.now.inputs self.now.outputs pair }
        ensures found { IfSome result (λ reason.
            Contains self.now.entries (record { pair = pair; fate = Fate.Deleted reason })) }
        ensures none { IfNone result (IsDeleted self.now.entries pair → ⊥) }
    {
        // no pair has two entries
        let _lawful = self.entries();
        match self.fate(pair) {
            Some(Fate::Deleted(reason)) => Some(reason),
            Some(Fate::Assigned(_)) => None,
            None => None,
        }
    }

    /// Whether a pair isn't deleted.
    pub fn remains(&self, pair: Pair) -> bool
        requires { IsPairOf self.now.inputs self.now.outputs pair }
        ensures left { IsTrue result → IsDeleted self.now.entries pair → ⊥ }
        ensures gone { result ≡ false → IsDeleted self.now.entries pair }
    {
        self.reason(pair).is_none()
    }

    /// The assigned pair of a port of a circuit, or None exactly where there is none.
    pub fn assigned(&self, side: Side, kind: PortKind, port: u32) -> Option<Pair>
        requires { port < ports_of self.now.inputs self.now.outputs kind }
        ensures { IsPairAt self.now.entries side kind port result }
    {
        self.pairs_at[port_number(self.inputs, self.outputs, side, kind, port)]
    }

    /// How many pairs of a port of a circuit are deleted.
    pub fn gone(&self, side: Side, kind: PortKind, port: u32) -> usize
        requires { port < ports_of self.now.inputs self.now.outputs kind }
        ensures { result ≡ gone_in self.now.entries side kind port }
    {
        self.gone[port_number(self.inputs, self.outputs, side, kind, port)]
    }

    /// Assigns an open pair of two ports of which no pair is assigned. A refusal changes nothing.
    pub fn assign(&mut self, pair: Pair, cause: Cause) -> Result<(), AllocError>
        requires known { IsPairOf self.old.inputs self.old.outputs pair }
        requires open { IsOpen self.old.entries pair }
        requires from { IsFreePort self.old.entries First pair.kind pair.from }
        requires to { IsFreePort self.old.entries Second pair.kind pair.to }
        ensures assigned { OnOk result (self.new ≡ record self.old {
          entries = self.old.entries ++ record { pair = pair; fate = Fate.Assigned cause } ∷ [];
        }) }
        ensures refused { OnErr result (self.new ≡ self.old) }
    {
        self.entries.reserve(1)?;
        self.pairs.reserve(1)?;
        let place = self.entries.len();
        let number = pair_number(self.inputs, self.outputs, pair);
        self.places.put(number, place)?;
        self.entries.push_reserved(Entry {
            pair,
            fate: Fate::Assigned(cause),
        });
        self.pairs.push_reserved(pair);
        put_at_ports(
            &mut self.pairs_at,
            self.inputs,
            self.outputs,
            pair,
            Some(pair),
        );
        Ok(())
    }

    /// Deletes an open pair. A refusal changes nothing.
    pub fn delete(&mut self, pair: Pair, reason: Reason) -> Result<(), AllocError>
        requires known { IsPairOf self.old.inputs self.old.outputs pair }
        requires open { IsOpen self.old.entries pair }
        ensures deleted { OnOk result (self.new ≡ record self.old {
          entries = self.old.entries ++ record { pair = pair; fate = Fate.Deleted reason } ∷ [];
        }) }
        ensures refused { OnErr result (self.new ≡ self.old) }
    {
        self.entries.reserve(1)?;
        let place = self.entries.len();
        let number = pair_number(self.inputs, self.outputs, pair);
        self.places.put(number, place)?;
        self.entries.push_reserved(Entry {
            pair,
            fate: Fate::Deleted(reason),
        });
        count_at_ports(&mut self.gone, self.inputs, self.outputs, pair);
        Ok(())
    }

    /// Keeps this many of the first entries. The pairs of the others are open again.
    pub fn back_to(&mut self, count: usize)
        requires { count ≤ length self.old.entries }
        ensures { self.new ≡ record self.old { entries = take count self.old.entries } }
    {
        while self.entries().len() > count {
            self.open_last();
        }
    }

    // Opens the pair of the last entry.
    fn open_last(&mut self)
        requires { 0 < length self.old.entries }
        ensures inputs { self.new.inputs ≡ self.old.inputs }
        ensures outputs { self.new.outputs ≡ self.old.outputs }
        ensures one { length self.old.entries ≡ length self.new.entries + 1 }
        ensures front { self.new.entries ≡ take (length self.new.entries) self.old.entries }
    {
        let Some(entry) = self.entries.pop() else {
            unreachable!()
        };
        let number = pair_number(self.inputs, self.outputs, entry.pair);
        self.places.clear(number);
        match entry.fate {
            Fate::Assigned(_) => {
                let _ = self.pairs.pop();
                put_at_ports(
                    &mut self.pairs_at,
                    self.inputs,
                    self.outputs,
                    entry.pair,
                    None,
                );
            }
            Fate::Deleted(_) => uncount_at_ports(
                &mut self.gone,
                self.inputs,
                self.outputs,
                entry.pair,
            ),
        }
    }
}

fn no_pairs(alloc: Global, count: usize) -> Result<Vec<Option<Pair>>, AllocError>
    ensures { IfOk result (λ pairs. pairs.items ≡ replicate count None) }
{
    vec![in alloc; None; count]
}
