//! The transistors of a network, and the arcs of its nodes.

ghost use Rattle.std.specs.Prelude.{◌≡◌, ◌≤◌, ◌<◌, ◌+◌, [], ◌∷◌, ◌++◌, ℕ, List, All, map, length, take, slice_index_or, IfOk, OnOk};
ghost use Rattle.switch_response.specs.Spread.{IsWithin};
ghost use Rattle.switch_response.specs.Arcs.{Wires, AreArcs, AreArcsAt, AddsArc, IsArcWithin};

use crate::transistor::{Channel, Transistor};
use std::alloc::Global;
use std::marker::Model;
use text_scan::NoMemory;

/// A transistor as it is seen from one of the nodes that it joins.
#[derive(Clone, Copy)]
pub struct Arc {
    pub channel: Channel,
    pub strength: u8,
    pub gate: usize,
    pub to: usize,
}

/// Transistors, with the arcs that lead from each node to storage nodes.
#[derive(Drop)]
pub struct Wiring {
    transistors: Vec<Transistor>,
    storage: usize,
    arcs: Vec<Vec<Arc>>,
}

impl Model for Wiring {
    ghost Value = { Wires };

    ghost view = { λ w. record { transistors = w.transistors.items; storage = w.storage; nodes = length w.arcs.items } };

    ghost invariant = { λ w. AreArcs (record { transistors = w.transistors.items; storage = w.storage; nodes = length w.arcs.items }) (map (λ v. v.items) w.arcs.items) };
}

/// A node's list without arcs, for each node.
fn no_arcs(alloc: Global, nodes: usize) -> Result<Vec<Vec<Arc>>, NoMemory>
    ensures count { IfOk result (λ arcs. length arcs.items ≡ nodes) }
    ensures none { IfOk result (λ arcs. All (λ row. row ≡ []) (map (λ v. v.items) arcs.items)) }
{
    let mut arcs = Vec::new(alloc);
    for node in 0..nodes {
        arcs.push(Vec::new(alloc))?;
    }
    Ok(arcs)
}

/// Adds the arc of a transistor from one node to another, if that is a storage node.
fn add_arc(
    arcs: &mut [Vec<Arc>],
    t: &Transistor,
    from: usize,
    to: usize,
    storage: usize,
) -> Result<(), NoMemory>
    requires { from < length arcs.old }
    ensures { OnOk result (AddsArc (map (λ v. v.items) arcs.old) (map (λ v. v.items) arcs.new) t.now from to storage) }
{
    if to < storage {
        arcs[from].push(Arc {
            channel: t.channel,
            strength: t.strength,
            gate: t.gate,
            to,
        })?;
    }
    Ok(())
}

/// Adds the arcs of all transistors to lists that have none.
fn add_arcs(
    arcs: &mut [Vec<Arc>],
    transistors: &[Transistor],
    storage: usize,
) -> Result<(), NoMemory>
    requires within { All (IsWithin (length arcs.old)) transistors.now }
    requires none { All (λ row. row ≡ []) (map (λ v. v.items) arcs.old) }
    ensures { OnOk result ((node : ℕ) → node < length arcs.old → AreArcsAt transistors.now storage node (slice_index_or (map (λ v. v.items) arcs.new) node [])) }
{
    for t in transistors {
        add_arc(arcs, t, t.drain, t.source, storage)?;
        add_arc(arcs, t, t.source, t.drain, storage)?;
    }
    Ok(())
}

impl Wiring {
    /// Transistors among storage nodes and, numbered after them, input nodes.
    pub fn new(
        alloc: Global,
        transistors: Vec<Transistor>,
        storage: usize,
        nodes: usize,
    ) -> Result<Wiring, NoMemory>
        requires storage { storage ≤ nodes }
        requires within { All (IsWithin nodes) transistors.items }
        ensures { IfOk result (λ w. w ≡ record { transistors = transistors.items; storage = storage; nodes = nodes }) }
    {
        let mut arcs = no_arcs(alloc, nodes)?;
        add_arcs(&mut arcs, &transistors, storage)?;
        Ok(Wiring {
            transistors,
            storage,
            arcs,
        })
    }

    /// How many nodes there are.
    pub fn nodes(&self) -> usize
        ensures count { result ≡ self.now.nodes }
        ensures storage { self.now.storage ≤ self.now.nodes }
        ensures within { All (IsWithin self.now.nodes) self.now.transistors }
    {
        self.arcs.len()
    }

    /// The arcs of one node.
    pub fn arcs_at(&self, node: usize) -> &[Arc]
        requires { node < self.now.nodes }
        ensures arcs { AreArcsAt self.now.transistors self.now.storage node result.now }
        ensures within { All (IsArcWithin self.now.nodes) result.now }
    {
        &self.arcs[node]
    }
}
