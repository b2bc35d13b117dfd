//! The nodes of a subcircuit: their names and places.

ghost use Rattle.std.specs.Prelude.{◌≡◌, ◌<◌, ◌^◌, ℕ, List, [], ◌∷◌, ◌++◌, map, length, Some, None, IfOk, OnOk, MatchOption, slice_get};
ghost use Rattle.std.specs.Str.{bytes_eq};
ghost use Rattle.switch_response.specs.Wiring.{input_nodes, first_double, pin_names, names_on, card_names, firsts};
ghost use Rattle.switch_response.specs.Places.{Indexes, IsPlaceOf, Grows, AreEndsOf, AreAllEnds};

use crate::name_index::NameIndex;
use circuit::{Subcircuit, Supply, Transistor as Card};
use std::alloc::Global;
use text_scan::{Direction, NoMemory, Text};

/// The place of the first pin whose name stands again after it.
pub fn double_of(alloc: Global, pins: &[(Text, Direction)]) -> Result<Option<usize>, NoMemory>
    ensures { IfOk result (λ place. MatchOption place (first_double (map (λ p. p.0) pins.now) ≡ None) (λ k. (k < length pins.now) × (first_double (map (λ p. p.0) pins.now) ≡ slice_get (map (λ p. p.0) pins.now) k))) }
{
    let mut seen = NameIndex::new(alloc);
    let mut double = None;
    for place in (0..pins.len()).rev() {
        if !seen.add(alloc, pins[place].0.as_bytes(), place)? {
            double = Some(place);
        }
    }
    Ok(double)
}

/// Where a name stands.
#[derive(Clone, Copy)]
pub enum Place {
    /// Among the storage nodes.
    Storage(usize),
    /// Among the input nodes.
    Input(usize),
}

/// The index of the input nodes.
pub fn index_of_inputs(
    alloc: Global,
    inputs: &[Text],
    supplies: &[Supply],
) -> Result<NameIndex, NoMemory>
    ensures { IfOk result (Indexes bytes_eq (input_nodes inputs.now supplies.now)) }
{
    let mut index = NameIndex::new(alloc);
    for place in 0..inputs.len() {
        let _ = index.add(alloc, inputs[place].as_bytes(), place)?;
    }
    'supplies: for place in 0..supplies.len() {
        let _ = index.add(alloc, supplies[place].name.as_bytes(), inputs.len() + place)?;
    }
    Ok(index)
}

impl Place {
    ghost use Rattle.switch_response.specs.Places.{number_of};

    /// The node's number, where so many storage nodes stand before the input nodes.
    pub fn number(self, storage: usize) -> usize
        requires { number_of storage self < 2 ^ 64 }
        ensures { result ≡ number_of storage self }
    {
        match self {
            Place::Storage(node) => node,
            Place::Input(node) => storage + node,
        }
    }
}

/// Where the ends of a card stand.
#[derive(Clone, Copy)]
pub struct Ends {
    pub drain: Place,
    pub gate: Place,
    pub source: Place,
}

/// Storage nodes, with the index of their names.
#[derive(Drop)]
pub struct Nodes {
    pub names: Vec<Text>,
    pub index: NameIndex,
}

impl Nodes {
    /// No nodes.
    pub fn new(alloc: Global) -> Nodes
        ensures names { result.names.items ≡ [] }
        ensures index { Indexes bytes_eq [] result.index }
    {
        Nodes {
            names: Vec::new(alloc),
            index: NameIndex::new(alloc),
        }
    }

    /// Where the name stands. It becomes a storage node where it stands nowhere.
    pub fn place(
        &mut self,
        alloc: Global,
        inputs: &NameIndex,
        name: &[u8],
    ) -> Result<Place, NoMemory>
        requires { Indexes bytes_eq self.old.names.items self.old.index }
        ensures index { OnOk result (Indexes bytes_eq self.new.names.items self.new.index) }
        ensures names { (before : List (List ℕ)) → Indexes bytes_eq before inputs.now → OnOk result (Grows before self.old.names.items (name.now ∷ []) self.new.names.items) }
        ensures place { (before : List (List ℕ)) → Indexes bytes_eq before inputs.now → IfOk result (IsPlaceOf self.new.names.items before name.now) }
    {
        if let Some(place) = inputs.get(name) {
            return Ok(Place::Input(place));
        }
        if let Some(place) = self.index.get(name) {
            return Ok(Place::Storage(place));
        }
        let place = self.names.len();
        let _ = self.index.add(alloc, name, place)?;
        self.names.push(Text::from_bytes(alloc, name)?)?;
        Ok(Place::Storage(place))
    }

    /// Gives each pin a place, in their order.
    fn place_pins(
        &mut self,
        alloc: Global,
        inputs: &NameIndex,
        pins: &[(Text, Direction)],
    ) -> Result<(), NoMemory>
        requires { Indexes bytes_eq self.old.names.items self.old.index }
        ensures index { OnOk result (Indexes bytes_eq self.new.names.items self.new.index) }
        ensures names { (before : List (List ℕ)) → Indexes bytes_eq before inputs.now → OnOk result (Grows before self.old.names.items (map (λ p. p.0) pins.now) self.new.names.items) }
    {
        for pin in pins {
            let _ = self.place(alloc, inputs, pin.0.as_bytes())?;
        }
        Ok(())
    }

    /// The places of a card's ends.
    fn place_card(
        &mut self,
        alloc: Global,
        inputs: &NameIndex,
        card: &Card,
    ) -> Result<Ends, NoMemory>
        requires { Indexes bytes_eq self.old.names.items self.old.index }
        ensures index { OnOk result (Indexes bytes_eq self.new.names.items self.new.index) }
        ensures names { (before : List (List ℕ)) → Indexes bytes_eq before inputs.now → OnOk result (Grows before self.old.names.items (names_on card.now) self.new.names.items) }
        ensures ends { (before : List (List ℕ)) → Indexes bytes_eq before inputs.now → IfOk result (AreEndsOf self.new.names.items before card.now) }
    {
        let drain = self.place(alloc, inputs, card.drain.as_bytes())?;
        let gate = self.place(alloc, inputs, card.gate.as_bytes())?;
        let source = self.place(alloc, inputs, card.source.as_bytes())?;
        Ok(Ends {
            drain,
            gate,
            source,
        })
    }

    /// The places of all cards' ends, in their order.
    fn place_cards(
        &mut self,
        alloc: Global,
        inputs: &NameIndex,
        cards: &[Card],
    ) -> Result<Vec<Ends>, NoMemory>
        requires { Indexes bytes_eq self.old.names.items self.old.index }
        ensures index { OnOk result (Indexes bytes_eq self.new.names.items self.new.index) }
        ensures names { (before : List (List ℕ)) → Indexes bytes_eq before inputs.now → OnOk result (Grows before self.old.names.items (card_names cards.now) self.new.names.items) }
        ensures ends { (before : List (List ℕ)) → Indexes bytes_eq before inputs.now → IfOk result (λ ends. AreAllEnds self.new.names.items before cards.now ends.items) }
        ensures count { IfOk result (λ ends. length ends.items ≡ length cards.now) }
    {
        let mut ends = Vec::new(alloc);
        for card in cards {
            ends.push(self.place_card(alloc, inputs, card)?)?;
        }
        Ok(ends)
    }
}

/// The storage nodes of a subcircuit, and where the ends of its cards stand.
pub fn nodes_of(
    alloc: Global,
    part: &Subcircuit,
    inputs: &NameIndex,
) -> Result<(Nodes, Vec<Ends>), NoMemory>
    ensures index { IfOk result (λ r. Indexes bytes_eq r.0.names.items r.0.index) }
    ensures names { (before : List (List ℕ)) → Indexes bytes_eq before inputs.now → IfOk result (λ r. r.0.names.items ≡ firsts before (pin_names part.now ++ card_names part.now.transistors)) }
    ensures ends { (before : List (List ℕ)) → Indexes bytes_eq before inputs.now → IfOk result (λ r. AreAllEnds r.0.names.items before part.now.transistors r.1.items) }
    ensures count { IfOk result (λ r. length r.1.items ≡ length part.now.transistors) }
{
    let mut nodes = Nodes::new(alloc);
    nodes.place_pins(alloc, inputs, part.pins.as_slice())?;
    let ends = nodes.place_cards(alloc, inputs, part.transistors.as_slice())?;
    Ok((nodes, ends))
}
