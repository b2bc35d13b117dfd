//! Directions of pins.
ghost use Rattle.std.specs.Prelude.{◌≡◌, ◌++◌, ◌∷◌, [], ℕ, List, Some, None, IfOk, MatchOption};
ghost use Rattle.cdl_cards.specs.Left.{card_left, cards_left};
ghost use Rattle.cdl_reader.specs.Pins as spec;

use cdl_cards::Cards;
use name_index::Names;
use std::alloc::Global;
use text_scan::{Direction, Items, NoMemory, Text};

#[tactic(auto, unfolding(crate::specs::Pins::direction_by))]
fn direction_by(letter: u8) -> Option<Direction>
    ensures { result ≡ spec.direction_by letter }
{
    if letter == b'I' || letter == b'i' {
        Some(Direction::Input)
    } else if letter == b'O' || letter == b'o' {
        Some(Direction::Output)
    } else if letter == b'B' || letter == b'b' {
        Some(Direction::Inout)
    } else {
        None
    }
}

// What a colon and a letter tell.
fn told_by_end(end: &[u8]) -> Option<Direction>
    ensures { (pin : List ℕ) → spec.told_by_end pin end.now ≡ spec.for_pin pin result }
{
    match end {
        [colon, letter] => {
            if *colon == b':' {
                direction_by(*letter)
            } else {
                None
            }
        }
        _ => None,
    }
}

// What a word tells, and of which pin.
#[tactic(auto, unfolding(crate::specs::Pins::told_by))]
fn told_by(word: &[u8]) -> Option<(&[u8], Direction)>
    ensures { MatchOption result (spec.told_by word.now ≡ None) (λ t. spec.told_by word.now ≡ Some (t.0.now, t.1)) }
{
    let size = word.len().saturating_sub(2);
    match told_by_end(&word[size..]) {
        None => None,
        Some(direction) => Some((&word[..size], direction)),
    }
}

/// Keeps what the words of the card tell.
pub fn tell(
    alloc: Global,
    cards: &mut Cards<'_>,
    told: &mut Items<(Text, Direction)>,
) -> Result<(), NoMemory>
    ensures told { IfOk result (λ u. told.new ≡ told.old ++ spec.told_by_words (card_left cards.old)) }
    ensures cards { cards_left cards.new ≡ cards_left cards.old }
{
    'words: while let Some(word) = cards.next_word() {
        if let Some((pin, direction)) = told_by(word.bytes) {
            told.push((Text::from_bytes(alloc, pin)?, direction))?;
        }
    }
    Ok(())
}

fn direction_at(directions: &[Direction], place: Option<usize>) -> Direction
    ensures { result ≡ spec.direction_at directions.now place }
{
    match place {
        None => Direction::Absent,
        Some(place) => {
            if place < directions.len() {
                directions[place]
            } else {
                Direction::Absent
            }
        }
    }
}

// What is told of pins, the last first, so that of what is told of one the last is found.
#[derive(Drop)]
struct LastFirst {
    names: Names,
    directions: Items<Direction>,
}

impl LastFirst {
    fn of(alloc: Global, told: &[(Text, Direction)]) -> Result<LastFirst, NoMemory>
        ensures { IfOk result (λ l. spec.IsLastFirst told.now l.names l.directions) }
    {
        let mut names = Names::new(alloc);
        let mut directions = Items::new(alloc);
        let count = told.len();
        for i in 0..count {
            let item = &told[count - 1 - i];
            names.push(alloc, item.0.as_bytes())?;
            directions.push(item.1)?;
        }
        Ok(LastFirst { names, directions })
    }

    fn direction_of(&self, pin: &[u8]) -> Direction
        ensures { (told : List (List ℕ × Direction)) → spec.IsLastFirst told self.now.names self.now.directions → result ≡ spec.direction_of told pin.now }
    {
        direction_at(self.directions.as_slice(), self.names.place_of(pin))
    }
}

/// The pins with their directions.
pub fn directed(
    alloc: Global,
    told: &[(Text, Direction)],
    pins: &[Text],
) -> Result<Items<(Text, Direction)>, NoMemory>
    ensures { IfOk result (λ made. made ≡ spec.directed told.now pins.now) }
{
    let last_first = LastFirst::of(alloc, told)?;
    let mut made = Items::new(alloc);
    for pin in pins {
        let direction = last_first.direction_of(pin.as_bytes());
        made.push((pin.copied(alloc)?, direction))?;
    }
    Ok(made)
}
