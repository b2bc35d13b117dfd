ghost use Rattle.std.specs.Prelude.{◌≡◌, ◌≢◌, ◌<◌, ◌≤◌, IsTrue, IfOk, IfErr, Some, true, false, length};
ghost use Rattle.std.specs.List.{slice_get};
ghost use Rattle.udp_table.specs.Rows.{case_of};
ghost use Rattle.udp_table.specs.Answers.{level_of, answer_of};
ghost use Rattle.udp_table.specs.Orders.{change_of};
ghost use Rattle.udp_table.specs.Building.{IsBuilt, IsRefused};

use crate::answer::{answer, by_level};
use crate::conflict::first_conflict;
use crate::order::OrderRoom;
use crate::read::{row_number, rows};
use crate::refusal::UdpRefusal;
use crate::row::{Row, copied_rows};
use std::alloc::Global;
use std::marker::Model;
use tern_core::Tern;
use text_scan::{Items, NoMemory, Text};
use verilog_source::UdpText;

/// The most inputs that a primitive may have.
pub const MAX_INPUTS: u32 = 10;

/// A user-defined primitive, of at most ten inputs and without rows that contradict each other.
#[derive(Debug, Drop)]
pub struct Udp {
    name: Text,
    sequential: bool,
    inputs: usize,
    rows: Items<Row>,
}

impl Model for Udp {
    ghost use Rattle.std.specs.Prelude.{◌≤◌};
    ghost use Rattle.udp_table.specs.Table.{Table};

    ghost Value = { Table };

    ghost view = { λ u. record { name = u.name; sequential = u.sequential; inputs = u.inputs; rows = u.rows } };

    ghost invariant = { λ u. u.inputs ≤ 10 };
}

/// The table of a primitive's text. Too many inputs are told first, then the first row that is
/// none, then the first two rows that conflict, by the first and then by the second. Rows count
/// from 1.
pub fn build(alloc: Global, text: &UdpText) -> Result<Udp, UdpRefusal>
    ensures built { IfOk result (IsBuilt text.now) }
    ensures refused { IfErr result (IsRefused text.now) }
{
    if text.inputs > MAX_INPUTS {
        return Err(UdpRefusal::TooManyInputs(text.inputs));
    }
    let rows = rows(alloc, text)?;
    let inputs = text.inputs as usize;
    if let Some((first, second)) = first_conflict(text.sequential, inputs, rows.as_slice()) {
        return Err(UdpRefusal::RowsConflict(row_number(first), row_number(second)));
    }
    Ok(Udp {
        name: text.name.copied(alloc)?,
        sequential: text.sequential,
        inputs,
        rows,
    })
}

impl Udp {
    pub fn name(&self) -> &[u8]
        ensures { result.now ≡ self.now.name }
    {
        self.name.as_bytes()
    }

    pub fn copied(&self, alloc: Global) -> Result<Udp, NoMemory>
        ensures { IfOk result (λ udp. udp ≡ self.now) }
    {
        Ok(Udp {
            name: self.name.copied(alloc)?,
            sequential: self.sequential,
            inputs: self.inputs,
            rows: copied_rows(alloc, self.rows.as_slice())?,
        })
    }

    /// The number of inputs.
    pub fn inputs(&self) -> usize
        ensures number { result ≡ self.now.inputs }
        ensures few { result ≤ 10 }
    {
        self.inputs
    }

    /// Whether the primitive holds a state.
    pub fn sequential(&self) -> bool
        ensures { result ≡ self.now.sequential }
    {
        self.sequential
    }

    /// The output of a combinational primitive at these levels of its inputs.
    pub fn level(&self, levels: &[Tern]) -> Tern
        requires combinational { self.now.sequential ≡ false }
        requires each_input { length levels.now ≡ self.now.inputs }
        ensures { result ≡ level_of self.now.rows levels.now }
    {
        by_level(self.rows.as_slice(), levels, Tern::Unknown).unwrap_or(Tern::Unknown)
    }

    /// The new state of a sequential primitive after one input has changed from `old` to `new`, with
    /// `new` in its place among the levels: what a level row that matches gives, else an edge row
    /// that matches, else X.
    pub fn step(&self, input: usize, old: Tern, new: Tern, levels: &[Tern], state: Tern) -> Tern
        requires sequential { self.now.sequential ≡ true }
        requires each_input { length levels.now ≡ self.now.inputs }
        requires in_place { slice_get levels.now input ≡ Some new }
        requires changed { old ≢ new }
        ensures { result ≡ answer_of self.now.rows (case_of input old levels.now state) }
    {
        prove!(levels[input] == new);
        answer(self.rows.as_slice(), input, old, levels, state)
    }

    /// The new state of a sequential primitive after its inputs have changed from `old` to `new`, in
    /// whichever order: the state in which all orders end, and X where two of them end in different
    /// states. Where no input has changed it is the state.
    pub fn change(&self, old: &[Tern], new: &[Tern], state: Tern, room: &mut OrderRoom) -> Tern
        requires sequential { self.now.sequential ≡ true }
        requires old_levels { length old.now ≡ self.now.inputs }
        requires new_levels { length new.now ≡ self.now.inputs }
        ensures { result ≡ change_of self.now.rows old.now new.now state }
    {
        room.common_end(self.rows.as_slice(), old, new, state)
    }
}
