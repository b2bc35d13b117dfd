// A shelf over memory, which tells all and fails at the calls that it is told.
ghost use Rattle.std.specs.Prelude.{◌≡◌, ◌≤◌, ◌<◌, [], true, Some, None, is_some, unwrap_or, length, drop, map, string_bytes, IfSome, IfNone};
ghost use Rattle.desk_ports.specs.Faults.{one_more, is_among, NoneFails};
ghost use Rattle.desk_ports.specs.Files.{file_in, files_of, bytes_at};
ghost use Rattle.desk_ports.specs.MemShelf.{new_shelf, is_expected};
ghost use Rattle.desk_ports.specs.Shelf.{Takes};

use crate::faults::raised;
use crate::{Asked, Shelf, ShelfFailed};
use std::marker::Model;

/// Files in memory. Of a name that stands twice the first place counts.
///
/// No call takes memory.
#[derive(Drop)]
pub struct MemShelf {
    files: Vec<(String, Vec<u8>)>,
    fails: Vec<u64>,
    expected: Option<Vec<String>>,
    reading: Option<Place>,
    asked: Asked,
    faults: u64,
}

// A byte of a file, by their indices.
#[derive(Clone, Copy)]
struct Place {
    file: usize,
    byte: usize,
}

impl Model for MemShelf {
    ghost use Rattle.std.specs.Prelude.{map, drop, string_bytes};
    ghost use Rattle.std.specs.Option.{option_map};
    ghost use Rattle.desk_ports.specs.Files.{files_of, bytes_at};
    ghost use Rattle.desk_ports.specs.MemShelf.{ShelfState};

    ghost Value = { ShelfState };

    ghost view = { λ s. record {
      files = files_of s.files.items;
      fails = s.fails.items;
      expected = option_map (λ names. map string_bytes names.items) s.expected;
      left = option_map
          (λ place. drop place.byte (bytes_at (files_of s.files.items) place.file)) s.reading;
      asked = s.asked;
      faults = s.faults;
    } };
}

impl MemShelf {
    /// The calls with these numbers, counted from 0, fail, and so does a start of a missing file.
    pub fn new(files: Vec<(String, Vec<u8>)>, fails: Vec<u64>) -> MemShelf
        ensures made { result ≡ new_shelf (files_of files.items) fails.items }
        ensures never { fails.items ≡ [] → NoneFails (⟦<MemShelf as Shelf>⟧.fails result) }
    {
        MemShelf {
            files,
            fails,
            expected: None,
            reading: None,
            asked: Asked::nothing(),
            faults: 0,
        }
    }

    /// The same shelf, which counts the starts of all other names as unexpected.
    pub fn expecting(self, names: Vec<String>) -> MemShelf
        ensures { result ≡ record self { expected = Some (map string_bytes names.items) } }
    {
        let MemShelf {
            files,
            fails,
            expected: _,
            reading,
            asked,
            faults,
        } = self;
        MemShelf {
            files,
            fails,
            expected: Some(names),
            reading,
            asked,
            faults,
        }
    }

    // Counts a failure.
    fn failed(&mut self) -> ShelfFailed
        ensures raised { self.new ≡ record self.old { faults = one_more self.old.faults } }
        ensures later { self.old.faults ≤ self.new.faults }
    {
        self.faults = raised(self.faults);
        ShelfFailed
    }

    /// What was asked so far.
    pub fn asked(&self) -> Asked
        ensures { result ≡ self.now.asked }
    {
        self.asked
    }
}

#[tactic(auto, using(crate::proofs::FilesLemmas::file_lemmas))]
// The index of the first file of a name.
fn place_of(files: &[(String, Vec<u8>)], name: &str) -> Option<usize>
    ensures found { IfSome result (λ file.
        file_in (files_of files.now) name.now ≡ Some (bytes_at (files_of files.now) file)) }
    ensures none { IfNone result (file_in (files_of files.now) name.now ≡ None) }
{
    for (index, file) in files.iter().enumerate() {
        if file.0.as_str() == name {
            return Some(index);
        }
    }
    None
}

#[tactic(auto, using(crate::proofs::FilesLemmas::file_lemmas))]
// The bytes of the file at an index, none past the last.
fn bytes_of(files: &[(String, Vec<u8>)], index: usize) -> &[u8]
    ensures { result.now ≡ bytes_at (files_of files.now) index }
{
    match files.get(index) {
        Some(file) => file.1.as_slice(),
        None => &[],
    }
}

#[tactic(auto, using(crate::proofs::FilesLemmas::file_lemmas))]
fn is_known(names: &[String], name: &str) -> bool
    ensures { result ≡ is_expected (Some (map string_bytes names.now)) name.now }
{
    for known in names {
        if known.as_str() == name {
            return true;
        }
    }
    false
}

// Copies as much as fits from a byte on, and goes on behind it.
fn take_part(bytes: &[u8], byte: &mut usize, room: &mut [u8]) -> usize
    requires { 0 < length room.old }
    ensures bytes { Takes (drop byte.old bytes.now) (drop byte.new bytes.now) room.new result }
    ensures count { result ≤ length room.new }
{
    if *byte >= bytes.len() {
        return 0;
    }
    let left = &bytes[*byte..];
    let count = left.len().min(room.len());
    room[..count].copy_from_slice(&left[..count]);
    *byte += count;
    count
}

impl Shelf for MemShelf {
    ghost tells = { true };

    ghost file = { λ s. file_in s.files };

    ghost left = { λ s. unwrap_or s.left [] };

    ghost started = { λ s. is_some s.left };

    ghost faults = { λ s. s.faults };

    ghost fails = { λ s. is_among s.fails };

    ghost expects = { λ s. is_expected s.expected };

    ghost asked = { λ s. s.asked };

    fn start(&mut self, name: &str) -> Result<(), ShelfFailed> {
        let told = self.fails.contains(&self.asked.calls);
        let expected = match &self.expected {
            Some(names) => is_known(names, name),
            None => true,
        };
        let found = place_of(&self.files, name);
        self.asked = self.asked.and_start(found.is_some(), expected);
        match found {
            Some(file) if !told => {
                self.reading = Some(Place { file, byte: 0 });
                Ok(())
            }
            _ => {
                self.reading = None;
                Err(self.failed())
            }
        }
    }

    fn take(&mut self, room: &mut [u8]) -> Result<usize, ShelfFailed> {
        let told = self.fails.contains(&self.asked.calls);
        match &mut self.reading {
            Some(place) if !told => {
                let bytes = bytes_of(&self.files, place.file);
                let count = take_part(bytes, &mut place.byte, room);
                self.asked = self.asked.and_bytes(count);
                Ok(count)
            }
            _ => {
                self.asked = self.asked.and_call();
                Err(self.failed())
            }
        }
    }
}
