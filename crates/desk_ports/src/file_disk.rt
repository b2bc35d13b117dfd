// A disk over a real file, of whose content nothing is told.
ghost use Rattle.std.specs.Prelude.{◌≡◌, ◌≤◌, IfOk, None, false, Ok, length};
ghost use Rattle.desk_ports.specs.DiskAsked.{no_call};
ghost use Rattle.desk_ports.specs.Faults.{HasCause};

use crate::faults::raised;
use crate::{Disk, DiskFailed};
use std::fs::{File, OpenOptions};
use std::io;
use std::io::ErrorKind;
use std::marker::Model;
use std::os::unix::fs::FileExt;
use std::rt::Files;

const NAME: &str = "qual.journal";

/// The file `qual.journal` of the current folder, which is made and locked at the first call.
///
/// The lock is exclusive and lasts as long as the disk: while another program has the file, each
/// call fails. The name is brought onto the disk before anything is written.
#[derive(Drop)]
pub struct FileDisk<'a, R: Files<File = File>> {
    rt: &'a R,
    file: Option<File>,
    faults: u64,
}

impl<'a, R: Files<File = File>> Model for FileDisk<'a, R> {
    ghost use Rattle.desk_ports.specs.RealDisk.{RealDisk};

    ghost Value = { RealDisk };

    ghost view = { λ d. record { faults = d.faults } };
}

impl<'a, R: Files<File = File>> FileDisk<'a, R> {
    pub fn new(rt: &'a R) -> FileDisk<'a, R>
        ensures { result.faults ≡ 0 }
    {
        FileDisk {
            rt,
            file: None,
            faults: 0,
        }
    }
}

// Opens the file, or makes it, and takes its lock. A name may be new also where an earlier program
// made it, so the folder is synced each time.
fn open_locked<R: Files<File = File>>(rt: &R) -> io::Result<File> {
    let file = OpenOptions::new()
        .read(true)
        .write(true)
        .create(true)
        .open(rt, NAME)?;
    file.try_lock()?;
    if !file.metadata()?.is_file() {
        return Err(io::Error::from(ErrorKind::InvalidInput));
    }
    File::open(rt, ".")?.sync_all()?;
    Ok(file)
}

// The file, opened at the first call.
fn opened<'f, R: Files<File = File>>(rt: &R, file: &'f mut Option<File>) -> io::Result<&'f File> {
    if file.is_none() {
        *file = Some(open_locked(rt)?);
    }
    match file {
        Some(file) => Ok(file),
        None => Err(io::Error::from(ErrorKind::NotFound)),
    }
}

// Reads on until the room is full or the file ends.
fn read_up_to(file: &File, place: u64, room: &mut [u8]) -> io::Result<usize>
    ensures { IfOk result (λ count. count ≤ length room.new) }
{
    let mut count = 0;
    for _ in 0..u64::MAX {
        if count == room.len() {
            break;
        }
        match file.read_at(&mut room[count..], place.saturating_add(count as u64)) {
            Ok(0) => break,
            Ok(more) => count += more,
            Err(e) if e.kind() == ErrorKind::Interrupted => {}
            Err(e) => return Err(e),
        }
    }
    Ok(count)
}

// Counts a failure.
fn counted<T>(faults: &mut u64, answer: io::Result<T>) -> Result<T, DiskFailed>
    ensures cause { HasCause faults.old faults.new result }
    ensures value { IfOk result (λ value. answer ≡ Ok value) }
{
    match answer {
        Ok(value) => Ok(value),
        Err(_) => {
            *faults = raised(*faults);
            Err(DiskFailed)
        }
    }
}

impl<R: Files<File = File>> Disk for FileDisk<'_, R> {
    ghost reads = { λ _. None };

    ghost image = { λ _ _. Unit {0} };

    ghost moment = { λ _. 0 };

    ghost image_since = { λ _ _ _. Unit {0} };

    ghost faults = { λ d. d.faults };

    ghost fails = { λ _ _. false };

    ghost asked = { λ _. no_call };

    ghost most = { λ _. no_call };

    ghost counts_now = { λ d t c le is. tt };

    ghost only_now = { λ d c is. tt };

    ghost reads_image = { λ d bytes is. tt };

    fn size(&mut self) -> Result<u64, DiskFailed> {
        let size = opened(self.rt, &mut self.file)
            .and_then(|file| file.metadata())
            .map(|metadata| metadata.len());
        counted(&mut self.faults, size)
    }

    fn read_at(&mut self, place: u64, room: &mut [u8]) -> Result<usize, DiskFailed> {
        let count = match opened(self.rt, &mut self.file) {
            Ok(file) => read_up_to(file, place, room),
            Err(e) => Err(e),
        };
        counted(&mut self.faults, count)
    }

    fn write_at(&mut self, place: u64, piece: &[u8]) -> Result<(), DiskFailed> {
        let written = match opened(self.rt, &mut self.file) {
            Ok(file) => file.write_all_at(piece, place),
            Err(e) => Err(e),
        };
        counted(&mut self.faults, written)
    }

    fn sync(&mut self) -> Result<(), DiskFailed> {
        let synced = opened(self.rt, &mut self.file).and_then(|file| file.sync_data());
        counted(&mut self.faults, synced)
    }
}
