//! What the rules of a book find.
ghost use Rattle.std.specs.Prelude.{◌≡◌, ◌++◌, IfOk, OnOk};
ghost use Rattle.house_rules.specs.Book.{rule_of, rules_of};
ghost use Rattle.house_rules.specs.Rules.{found_at, found_by, found_of_pins, house_findings, pin_at};

use crate::book::HouseBook;
use crate::rule::HouseRule;
use pin_tables::PinTable;
use std::alloc::Global;
use text_scan::{NoMemory, Text};
use verdict_text::{Finding, View};

impl HouseBook {
    /// What the rules find of a cell's pins: each rule in its order is asked of the cell and then of each pin.
    pub fn findings(&self, alloc: Global, table: &PinTable) -> Result<Vec<Finding>, NoMemory>
        ensures { IfOk result (λ found. found.items ≡ house_findings (rules_of self.now) table.now) }
    {
        let mut found = Vec::new(alloc);
        for rule in &self.rules {
            add_found(alloc, rule, table, &mut found)?;
        }
        Ok(found)
    }
}

fn add_found(
    alloc: Global,
    rule: &HouseRule,
    table: &PinTable,
    found: &mut Vec<Finding>,
) -> Result<(), NoMemory>
    ensures { OnOk result (found.new.items ≡ found.old.items ++ found_by table.now (rule_of rule.now)) }
{
    ask(alloc, rule, table, None, found)?;
    ask_of_pins(alloc, rule, table, found)
}

#[tactic(auto, using(crate::proofs::Lists::one_more, std::proofs::lemmas::List::append_assoc))]
fn ask_of_pins(
    alloc: Global,
    rule: &HouseRule,
    table: &PinTable,
    found: &mut Vec<Finding>,
) -> Result<(), NoMemory>
    ensures { OnOk result (found.new.items ≡ found.old.items ++ found_of_pins table.now (rule_of rule.now)) }
{
    for place in 0..table.pins.len() {
        ask(alloc, rule, table, Some(place), found)?;
    }
    Ok(())
}

fn ask(
    alloc: Global,
    rule: &HouseRule,
    table: &PinTable,
    place: Option<usize>,
    found: &mut Vec<Finding>,
) -> Result<(), NoMemory>
    ensures { OnOk result (found.new.items ≡ found.old.items ++ found_at table.now (rule_of rule.now) place) }
{
    if rule.asked(table, place) {
        found.push(Finding {
            code: rule.code,
            pin: name_at(alloc, table, place)?,
            view: View::Liberty,
            mismatch: None,
            waiver: None,
        })?;
    }
    Ok(())
}

fn name_at(alloc: Global, table: &PinTable, place: Option<usize>) -> Result<Option<Text>, NoMemory>
    ensures { IfOk result (λ name. name ≡ pin_at table.now place) }
{
    let Some(place) = place else {
        return Ok(None);
    };
    match table.pins.as_slice().get(place) {
        None => Ok(None),
        Some(pin) => Ok(Some(pin.name.copied(alloc)?)),
    }
}
