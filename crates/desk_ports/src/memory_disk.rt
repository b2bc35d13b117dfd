// A disk over memory, which tells all and fails at the calls that it is told. It keeps a log of the
// calls that changed it, so that it tells its images at every moment.
ghost use Rattle.std.specs.Prelude.{◌≡◌, ◌≤◌, ◌+◌, ◌-◌, ◌++◌, [], true, Some, length, take, drop, min, IfOk, vec_capacity};
ghost use Rattle.desk_ports.specs.Disk.{overwritten};
ghost use Rattle.desk_ports.specs.DiskAsked.{answers_call, answers_write};
ghost use Rattle.desk_ports.specs.Faults.{is_among, NoneFails};
ghost use Rattle.desk_ports.specs.MemDisk.{bytes_after, IsImage, IsImageSince, new_disk};
ghost use Rattle.desk_ports.specs.DiskLaws.{image_now, image_only_now, bytes_image};

use crate::disk_entry::Entry;
use crate::faults::raised;
use crate::{Disk, DiskAsked, DiskFailed, NoMemory};
use std::alloc::Global;
use std::marker::Model;

/// A disk with room for a number of bytes and of calls. It takes all its memory when it is made.
#[derive(Drop)]
pub struct MemDisk {
    first: Vec<u8>,
    bytes: Vec<u8>,
    log: Vec<Entry>,
    // the pieces that were written, one behind another
    pieces: Vec<u8>,
    fails: Vec<u64>,
    asked: DiskAsked,
    room: DiskAsked,
    faults: u64,
}

impl Model for MemDisk {
    ghost use Rattle.std.specs.Prelude.{◌≡◌, ◌≤◌, [], length, vec_capacity};
    ghost use Rattle.desk_ports.specs.MemDisk.{DiskState, bytes_after};
    ghost use Rattle.desk_ports.specs.DiskLog.{past_from, piece_bytes};

    ghost Value = { DiskState };

    ghost view = { λ d. record {
      first = d.first.items;
      past = past_from [] d.log.items d.pieces.items;
      asked = d.asked;
      most = d.room;
      fails = d.fails.items;
      faults = d.faults;
    } };

    ghost invariant = { λ d.
        (d.bytes.items ≡ bytes_after (past_from [] d.log.items d.pieces.items) d.first.items)
        × (piece_bytes d.log.items ≡ length d.pieces.items)
        × (length d.log.items ≤ d.asked.calls)
        × (d.asked.written ≡ length d.pieces.items)
        × (d.room.calls ≤ vec_capacity d.log)
        × (d.room.written ≤ vec_capacity d.pieces)
        × (d.room.end ≤ vec_capacity d.bytes) };
}

impl MemDisk {
    /// A disk of these bytes, which are its only image. The calls with the numbers of `fails`,
    /// counted from 0, fail, and so do a write whose end is past `room`, each call from number
    /// `calls` on, and a write with which more than `room + calls` bytes were written in all.
    pub fn new(
        alloc: Global,
        bytes: Vec<u8>,
        room: usize,
        calls: usize,
        fails: Vec<u64>,
    ) -> Result<MemDisk, NoMemory>
        ensures made { IfOk result (λ disk. disk ≡ new_disk bytes.items room calls fails.items) }
        ensures never { fails.items ≡ []
            → IfOk result (λ disk. NoneFails (⟦<MemDisk as Disk>⟧.fails disk)) }
    {
        let Some(written) = room.checked_add(calls) else {
            return Err(NoMemory);
        };
        let mut now = Vec::with_capacity(alloc, bytes.len().max(room))?;
        now.extend_from_slice(&bytes)?;
        Ok(MemDisk {
            first: bytes,
            bytes: now,
            log: Vec::with_capacity(alloc, calls)?,
            pieces: Vec::with_capacity(alloc, written)?,
            fails,
            asked: DiskAsked::nothing(),
            room: DiskAsked {
                calls: calls as u64,
                written: written as u64,
                end: room as u64,
            },
            faults: 0,
        })
    }

    /// The bytes that a read gives.
    pub fn bytes(&self) -> &[u8]
        ensures { result.now ≡ bytes_after self.now.past self.now.first }
    {
        &self.bytes
    }

    /// What was asked so far.
    pub fn asked(&self) -> DiskAsked
        ensures { result ≡ self.now.asked }
    {
        self.asked
    }
}

// Whether a call that writes nothing succeeds.
fn answers(fails: &[u64], room: &DiskAsked, asked: &DiskAsked) -> bool
    ensures { result ≡ answers_call (is_among fails.now) room.now asked.now }
{
    asked.calls < room.calls && !fails.contains(&asked.calls)
}

// Whether a write of so many bytes at a place does.
fn takes_write(fails: &[u64], room: &DiskAsked, place: u64, size: u64, asked: &DiskAsked) -> bool
    requires written { asked.now.written + size ≤ 18446744073709551615 }
    requires end { place + size ≤ 18446744073709551615 }
    ensures { result ≡ answers_write (is_among fails.now) room.now place size asked.now }
{
    answers(fails, room, asked)
        && (asked.written + size <= room.written && place + size <= room.end)
}

// Puts a piece over what is there and past the end, for which there is room.
fn overwrite(bytes: &mut Vec<u8>, place: usize, piece: &[u8])
    requires place { place ≤ length bytes.old.items }
    requires room { place + length piece.now ≤ vec_capacity bytes.old }
    ensures bytes { bytes.new.items ≡ overwritten bytes.old.items place piece.now }
    ensures room { vec_capacity bytes.old ≤ vec_capacity bytes.new }
{
    let inside = piece.len().min(bytes.len() - place);
    bytes.extend_from_slice(&piece[inside..]).unwrap();
    bytes[place..place + inside].copy_from_slice(&piece[..inside]);
}

// Copies as many bytes from a place on as there are and as fit.
fn copy_from(bytes: &[u8], place: u64, room: &mut [u8]) -> usize
    ensures many { result ≡ min (length room.new) (length bytes.now - place) }
    ensures bytes { take result room.new ≡ take result (drop place bytes.now) }
{
    if place >= bytes.len() as u64 {
        return 0;
    }
    let left = &bytes[place as usize..];
    let count = left.len().min(room.len());
    room[..count].copy_from_slice(&left[..count]);
    count
}

impl Disk for MemDisk {
    ghost reads = { λ d. Some (bytes_after d.past d.first) };

    ghost image = { λ d c. IsImage d.past d.first c };

    ghost moment = { λ d. length d.past };

    ghost image_since = { λ d t c. IsImageSince d.past d.first t c };

    ghost faults = { λ d. d.faults };

    ghost fails = { λ d. is_among d.fails };

    ghost asked = { λ d. d.asked };

    ghost most = { λ d. d.most };

    ghost counts_now = { λ d t c le is. image_now d.past d.first t c is };

    ghost only_now = { λ d c is. image_only_now d.past d.first c is };

    ghost reads_image = { λ d bytes is. bytes_image d.past d.first bytes is };

    fn size(&mut self) -> Result<u64, DiskFailed> {
        let answers = answers(&self.fails, &self.room, &self.asked);
        self.asked = self.asked.and_call();
        if !answers {
            self.faults = raised(self.faults);
            return Err(DiskFailed);
        }
        Ok(self.bytes.len() as u64)
    }

    fn read_at(&mut self, place: u64, room: &mut [u8]) -> Result<usize, DiskFailed> {
        let answers = answers(&self.fails, &self.room, &self.asked);
        self.asked = self.asked.and_call();
        if !answers {
            self.faults = raised(self.faults);
            return Err(DiskFailed);
        }
        Ok(copy_from(&self.bytes, place, room))
    }

    fn write_at(&mut self, place: u64, piece: &[u8]) -> Result<(), DiskFailed> {
        let size = piece.len() as u64;
        let takes = takes_write(&self.fails, &self.room, place, size, &self.asked);
        self.asked = self.asked.and_write(place, size, takes);
        if !takes {
            self.faults = raised(self.faults);
            return Err(DiskFailed);
        }
        overwrite(&mut self.bytes, place as usize, piece);
        self.pieces.extend_from_slice(piece).unwrap();
        self.log.push(Entry::Write(place, piece.len())).unwrap();
        Ok(())
    }

    fn sync(&mut self) -> Result<(), DiskFailed> {
        let answers = answers(&self.fails, &self.room, &self.asked);
        self.asked = self.asked.and_call();
        if !answers {
            self.faults = raised(self.faults);
            return Err(DiskFailed);
        }
        self.log.push(Entry::Sync).unwrap();
        Ok(())
    }
}
