//! Making an index of waivers.
ghost use Rattle.std.specs.Prelude.{◌≡◌, IfOk, IsSorted, option_copied};
ghost use Rattle.waiver_source.specs.Index as spec;

use crate::entry::{Entry, Key, PlacedKey};
use crate::waiver::Waiver;
use std::alloc::Global;
use text_scan::NoMemory;

fn key_of(alloc: Global, waiver: &Waiver) -> Result<Key, NoMemory>
    ensures { IfOk result (λ key. spec.words_of key ≡ spec.words waiver.now) }
{
    Ok(Key {
        code: waiver.code.word(),
        cell: waiver.cell.as_bytes().to_vec(alloc)?,
        pin: waiver.pin.as_bytes().to_vec(alloc)?,
    })
}

// The keys of waivers with their places, in the order of these.
fn placed_keys(alloc: Global, waivers: &[Waiver]) -> Result<Vec<PlacedKey>, NoMemory>
    ensures { IfOk result (λ keys. spec.AreKeysOf waivers.now keys.items) }
{
    let mut keys = Vec::with_capacity(alloc, waivers.len())?;
    for place in 0..waivers.len() {
        let key = key_of(alloc, &waivers[place])?;
        keys.push(PlacedKey { key, place })?;
    }
    Ok(keys)
}

// The latest last day behind an entry, for a waiver with this key.
fn latest_behind(before: Option<&Entry>, key: &Key, waiver: &Waiver) -> i32
    ensures { result ≡ spec.latest_behind (option_copied before.entry) key.now waiver.now.last }
{
    match before {
        None => waiver.last,
        Some(entry) => {
            let words = entry.placed.key.compare(key.code, &key.cell, &key.pin);
            if words.is_eq() {
                entry.latest.max(waiver.last)
            } else {
                waiver.last
            }
        }
    }
}

// The entries of keys that are in order.
fn raised(alloc: Global, waivers: &[Waiver], keys: Vec<PlacedKey>) -> Result<Vec<Entry>, NoMemory>
    requires { spec.AreKeysOf waivers.now keys.items × IsSorted spec.placed_cmp keys.items }
    ensures { IfOk result (λ entries. spec.IsIndexOf waivers.now entries.items) }
{
    let mut entries: Vec<Entry> = Vec::with_capacity(alloc, keys.len())?;
    for placed in keys {
        let waiver = &waivers[placed.place];
        let latest = latest_behind(entries.last(), &placed.key, waiver);
        entries.push(Entry { placed, latest })?;
    }
    Ok(entries)
}

/// The entries of these waivers, in the order of their keys and places.
pub(crate) fn entries_of(alloc: Global, waivers: &[Waiver]) -> Result<Vec<Entry>, NoMemory>
    ensures { IfOk result (λ entries. spec.IsIndexOf waivers.now entries.items) }
{
    let mut keys = placed_keys(alloc, waivers)?;
    keys.sort()?;
    raised(alloc, waivers, keys)
}
