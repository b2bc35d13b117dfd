//! The network of a subcircuit.

ghost use Rattle.std.specs.Prelude.{◌≡◌, ◌<◌, ◌≤◌, ◌+◌, ◌++◌, ℕ, List, map, length, replicate, Some, None, IfOk, OnOk, IfErr, All, slice_get, IsSomeAnd};
ghost use Rattle.switch_response.specs.Wiring.{AllStandFor, size_of, supply_value, channel_of, first_unknown, IsNetworkOf, IsAccepted};
ghost use Rattle.switch_response.specs.Places.{Indexes, AreAllEnds, HasNumbers, AreModels, number_of, is_named, is_size_of};
ghost use Rattle.switch_response.specs.Refusals.{IsMissing, IsCause};
ghost use Rattle.switch_response.specs.declared.building.NetRefusal.TheVariants.{NoMemory};

use crate::name_index::NameIndex;
use crate::naming::{Ends, double_of, index_of_inputs, nodes_of};
use crate::network::SwitchNet;
use crate::transistor::{Channel, Transistor};
use crate::wiring::Wiring;
use circuit::{ModelCard, Size, Subcircuit, Supply, Tech, Transistor as Card};
use std::alloc::{AllocError, AllocFailed, Global};
use tern_core::Tern;
use text_scan::{PinKind, Text};

/// Why a subcircuit has no network. The first of these that applies is told.
#[derive(Debug, Drop)]
pub enum NetRefusal {
    /// The first pin name that stands twice in the pin list.
    SupplyShort(Text),
    /// The first card's model that the technology lacks.
    UnknownModel(Text),
    /// How many storage nodes there are, where they are more than 512.
    TooManyNodes(u32),
    NoMemory,
}

impl From<text_scan::NoMemory> for NetRefusal {
    ghost from_gives = { λ _ e. e ≡ NoMemory };

    fn from(_: text_scan::NoMemory) -> Self {
        NetRefusal::NoMemory
    }
}

impl From<AllocError> for NetRefusal {
    ghost from_gives = { λ _ e. e ≡ NoMemory };

    fn from(_: AllocError) -> Self {
        NetRefusal::NoMemory
    }
}

impl<T: Drop> From<AllocFailed<T>> for NetRefusal {
    ghost from_gives = { λ _ e. e ≡ NoMemory };

    fn from(_: AllocFailed<T>) -> Self {
        NetRefusal::NoMemory
    }
}

/// The index of the models by their names.
fn index_of_models(alloc: Global, models: &[ModelCard]) -> Result<NameIndex, text_scan::NoMemory>
    ensures { IfOk result (Indexes is_named models.now) }
{
    let mut index = NameIndex::new(alloc);
    for place in 0..models.len() {
        let _ = index.add(alloc, models[place].name.as_bytes(), place)?;
    }
    Ok(index)
}

/// The place of each card's model.
fn models_of(alloc: Global, cards: &[Card], models: &[ModelCard]) -> Result<Vec<usize>, NetRefusal>
    ensures models { IfOk result (λ places. AreModels models.now cards.now places.items) }
    ensures count { IfOk result (λ places. length places.items ≡ length cards.now) }
    ensures known { OnOk result (first_unknown models.now cards.now ≡ None) }
    ensures missing { IfErr result (IsMissing models.now cards.now) }
{
    let index = index_of_models(alloc, models)?;
    let mut places = Vec::new(alloc);
    for card in cards {
        match index.get(card.model.as_bytes()) {
            Some(place) => places.push(place)?,
            None => return Err(NetRefusal::UnknownModel(card.model.copied(alloc)?)),
        }
    }
    Ok(places)
}

/// The index of a cell's sizes by their nodes.
fn index_of_sizes(
    alloc: Global,
    cell: &[u8],
    sizes: &[Size],
) -> Result<NameIndex, text_scan::NoMemory>
    ensures { IfOk result (Indexes (is_size_of cell.now) sizes.now) }
{
    let mut index = NameIndex::new(alloc);
    for place in 0..sizes.len() {
        let size = &sizes[place];
        if cell == size.cell.as_bytes() {
            let _ = index.add(alloc, size.node.as_bytes(), place)?;
        }
    }
    Ok(index)
}

/// The strength that a size gives.
fn strength_at(sizes: &[Size], place: usize) -> u8
    requires { place < length sizes.now }
    ensures { IsSomeAnd (slice_get sizes.now place) (λ z. result ≡ z.strength) }
{
    sizes[place].strength
}

/// The sizes of a cell's storage nodes.
fn sizes_of(
    alloc: Global,
    names: &[Text],
    cell: &[u8],
    sizes: &[Size],
) -> Result<Vec<u8>, text_scan::NoMemory>
    ensures { IfOk result (λ strengths. strengths.items ≡ map (size_of sizes.now cell.now) names.now) }
{
    let index = index_of_sizes(alloc, cell, sizes)?;
    let mut strengths = Vec::new(alloc);
    for name in names {
        strengths.push(match index.get(name.as_bytes()) {
            Some(place) => strength_at(sizes, place),
            None => 1,
        })?;
    }
    Ok(strengths)
}

/// The strength of input nodes.
const INPUT_STRENGTH: u8 = 8;

/// The strengths of all nodes.
fn strengths_of(
    alloc: Global,
    names: &[Text],
    inputs: usize,
    cell: &[u8],
    sizes: &[Size],
) -> Result<Vec<u8>, text_scan::NoMemory>
    ensures { IfOk result (λ strengths. strengths.items ≡ map (size_of sizes.now cell.now) names.now ++ replicate inputs 8) }
{
    let mut strengths = sizes_of(alloc, names, cell, sizes)?;
    let rest = vec![in alloc; INPUT_STRENGTH; inputs]?;
    strengths.extend_from_slice(&rest)?;
    Ok(strengths)
}

/// The channel of a model.
fn channel(p: bool) -> Channel
    ensures { result ≡ channel_of p }
{
    if p { Channel::P } else { Channel::N }
}

/// The transistor of a card with this model and these ends.
fn transistor_of(models: &[ModelCard], place: usize, ends: Ends, storage: usize) -> Transistor
    requires place { place < length models.now }
    requires numbers { HasNumbers storage ends }
    ensures model { IsSomeAnd (slice_get models.now place) (λ m. (result.channel ≡ channel_of m.p) × (result.strength ≡ m.strength)) }
    ensures drain { result.drain ≡ number_of storage ends.drain }
    ensures gate { result.gate ≡ number_of storage ends.gate }
    ensures source { result.source ≡ number_of storage ends.source }
{
    let model = &models[place];
    Transistor {
        channel: channel(model.p),
        gate: ends.gate.number(storage),
        drain: ends.drain.number(storage),
        source: ends.source.number(storage),
        strength: model.strength,
    }
}

/// The transistor of each card.
fn transistors_of(
    alloc: Global,
    cards: &[Card],
    models: &[ModelCard],
    places: &[usize],
    ends: &[Ends],
    storage: usize,
) -> Result<Vec<Transistor>, text_scan::NoMemory>
    requires models { AreModels models.now cards.now places.now }
    requires places { length places.now ≡ length cards.now }
    requires ends { length ends.now ≡ length cards.now }
    requires numbers { All (HasNumbers storage) ends.now }
    ensures { (names before : List (List ℕ)) → length names ≡ storage → AreAllEnds names before cards.now ends.now → IfOk result (λ ts. AllStandFor models.now (names ++ before) cards.now ts.items) }
{
    let mut transistors = Vec::new(alloc);
    for place in 0..cards.len() {
        transistors.push(transistor_of(models, places[place], ends[place], storage))?;
    }
    Ok(transistors)
}

/// The value of a supply's node.
fn value_of(kind: PinKind) -> Tern
    ensures { result ≡ supply_value kind }
{
    match kind {
        PinKind::Power => Tern::One,
        PinKind::Ground => Tern::Zero,
        PinKind::Signal => Tern::Unknown,
    }
}

/// The values of the supplies' nodes.
fn supply_values(alloc: Global, supplies: &[Supply]) -> Result<Vec<Tern>, AllocError>
    ensures { IfOk result (λ values. values.items ≡ map (λ s. supply_value s.kind) supplies.now) }
{
    supplies.iter().map(|s| value_of(s.kind)).collect(alloc)
}

/// The greatest number of storage nodes.
const MOST_NODES: usize = 512;

/// The network of a subcircuit, whose input nodes are these inputs and supplies. All other nodes are storage nodes: the
/// pins in their order, then the nodes of the cards by first appearance as drain, gate or source. A storage node has
/// strength 1 unless the technology names its size. The values of `pins` in the calls on the network stand in the order
/// of `inputs`. The names of inputs and supplies are to differ: which of two equal ones a card means isn't told.
pub fn build(
    alloc: Global,
    part: &Subcircuit,
    tech: &Tech,
    supplies: &[Supply],
    inputs: &[Text],
) -> Result<SwitchNet, NetRefusal>
    requires sizes { All (λ z. (1 ≤ z.strength) × (z.strength ≤ 3)) tech.now.sizes }
    ensures network { IfOk result (IsNetworkOf part.now tech.now supplies.now inputs.now) }
    ensures accepted { OnOk result (IsAccepted part.now tech.now supplies.now inputs.now) }
    ensures refused { IfErr result (IsCause part.now tech.now supplies.now inputs.now) }
{
    let pins = part.pins.as_slice();
    if let Some(place) = double_of(alloc, pins)? {
        return Err(NetRefusal::SupplyShort(pins[place].0.copied(alloc)?));
    }
    let cards = part.transistors.as_slice();
    let models = tech.models.as_slice();
    let places = models_of(alloc, cards, models)?;
    let input_nodes = index_of_inputs(alloc, inputs, supplies)?;
    let (nodes, ends) = nodes_of(alloc, part, &input_nodes)?;
    let storage = nodes.names.len();
    if storage > MOST_NODES {
        return Err(NetRefusal::TooManyNodes(storage.min(u32::MAX as usize) as u32));
    }
    let count = inputs.len() + supplies.len();
    let strengths = strengths_of(
        alloc,
        &nodes.names,
        count,
        part.name.as_bytes(),
        tech.sizes.as_slice(),
    )?;
    let transistors = transistors_of(alloc, cards, models, &places, &ends, storage)?;
    let wiring = Wiring::new(alloc, transistors, storage, storage + count)?;
    let values = supply_values(alloc, supplies)?;
    Ok(SwitchNet {
        names: nodes.names,
        index: nodes.index,
        pins: inputs.len(),
        supplies: values,
        strengths,
        wiring,
    })
}
