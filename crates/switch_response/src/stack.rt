//! A stack of nodes that takes no memory once it is made.

ghost use Rattle.std.specs.Prelude.{◌≡◌, ◌≤◌, ◌<◌, ◌+◌, [], ◌∷◌, ◌++◌, ℕ, All, Contains, length, take, IfOk, MatchOption};
ghost use Rattle.switch_response.specs.Pile.{Pile};

use std::alloc::{AllocError, Global};
use std::marker::Model;

/// Nodes that wait for their turn. The last one that came is the first that goes.
#[derive(Drop)]
pub struct Stack {
    nodes: Vec<usize>,
    count: usize,
}

impl Model for Stack {
    ghost Value = { Pile };

    ghost view = { λ s. record { items = take s.count s.nodes.items; capacity = length s.nodes.items } };

    ghost invariant = { λ s. s.count ≤ length s.nodes.items };
}

impl Stack {
    /// Room for so many.
    pub fn new(alloc: Global, capacity: usize) -> Result<Stack, AllocError>
        ensures { IfOk result (λ s. s ≡ record { items = []; capacity = capacity }) }
    {
        Ok(Stack {
            nodes: vec![in alloc; 0usize; capacity]?,
            count: 0,
        })
    }

    /// Holds each node below `count`, the last one on top.
    pub fn fill(&mut self, count: usize)
        requires { count ≤ self.old.capacity }
        ensures capacity { self.new.capacity ≡ self.old.capacity }
        ensures count { length self.new.items ≡ count }
        ensures each { (k : ℕ) → k < count → Contains self.new.items k }
        ensures below { All (λ k. k < count) self.new.items }
    {
        for node in 0..count {
            self.nodes[node] = node;
        }
        self.count = count;
    }

    pub fn push(&mut self, node: usize)
        requires { length self.old.items < self.old.capacity }
        ensures capacity { self.new.capacity ≡ self.old.capacity }
        ensures items { self.new.items ≡ self.old.items ++ node ∷ [] }
    {
        self.nodes[self.count] = node;
        self.count += 1;
    }

    pub fn pop(&mut self) -> Option<usize>
        ensures capacity { self.new.capacity ≡ self.old.capacity }
        ensures items { MatchOption result ((self.old.items ≡ []) × (self.new.items ≡ [])) (λ node. self.old.items ≡ self.new.items ++ node ∷ []) }
    {
        if self.count == 0 {
            return None;
        }
        self.count -= 1;
        Some(self.nodes[self.count])
    }
}
