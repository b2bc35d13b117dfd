//! A table's pins by name.
ghost use Rattle.std.specs.Prelude.{◌≡◌, IfOk, map};
ghost use Rattle.pin_tables.specs.Tables.{name_of, said_of};

use crate::table::{Pin, Role};
use name_index::Names;
use std::alloc::Global;
use std::marker::Model;
use text_scan::NoMemory;

// The most pins without an index. Most cells have fewer, and to look through so few costs less than an index.
const MOST_UNINDEXED: usize = 16;

/// A table's pins, each name at its first place. Copies no name where there are no more than 16 pins.
#[derive(Drop)]
pub(crate) struct PinLookup<'a> {
    pins: &'a [Pin],
    names: Option<Names>,
}

impl<'a> Model for PinLookup<'a> {
    ghost use Rattle.std.specs.Prelude.{List};
    ghost use Rattle.pin_tables.specs.declared.table.Pin.{Pin as PinData};
    ghost use Rattle.pin_tables.specs.Held.{HasNames};

    ghost Value = { List PinData };

    ghost view = { λ l. l.pins.now };

    ghost invariant = { λ l. HasNames l.pins.now l.names };
}

impl<'a> PinLookup<'a> {
    pub(crate) fn of(alloc: Global, pins: &'a [Pin]) -> Result<PinLookup<'a>, NoMemory>
        ensures { IfOk result (λ lookup. lookup ≡ pins.now) }
    {
        let names = if pins.len() <= MOST_UNINDEXED {
            None
        } else {
            Some(names_of(alloc, pins)?)
        };
        Ok(PinLookup { pins, names })
    }

    /// What the table says of the name.
    pub(crate) fn get(&self, name: &[u8]) -> Option<Role>
        ensures { result ≡ said_of self.now name.now }
    {
        match &self.names {
            None => said_by(self.pins, name),
            Some(names) => match names.place_of(name) {
                None => None,
                Some(place) => Some(self.pins[place].role()),
            },
        }
    }
}

fn said_by(pins: &[Pin], name: &[u8]) -> Option<Role>
    ensures { result ≡ said_of pins.now name.now }
{
    match pins.iter().find(|pin| name == pin.name.as_bytes()) {
        None => None,
        Some(pin) => Some(pin.role()),
    }
}

fn names_of(alloc: Global, pins: &[Pin]) -> Result<Names, NoMemory>
    ensures { IfOk result (λ names. names ≡ map name_of pins.now) }
{
    let mut names = Names::new(alloc);
    for pin in pins {
        names.push(alloc, pin.name.as_bytes())?;
    }
    Ok(names)
}
