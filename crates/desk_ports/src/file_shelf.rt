// The files of the system, of whose content nothing is told.
ghost use Rattle.std.specs.Prelude.{◌≡◌, [], None, false, true};
ghost use Rattle.desk_ports.specs.Asked.{nothing_asked};

use crate::faults::raised;
use crate::{Shelf, ShelfFailed};
use std::fs;
use std::io::Read;
use std::marker::Model;
use std::rt::Files;

/// The files of the current folder.
#[derive(Drop)]
pub struct FileShelf<'a, R: Files> {
    rt: &'a R,
    file: Option<R::File>,
    faults: u64,
}

impl<'a, R: Files> Model for FileShelf<'a, R> {
    ghost use Rattle.std.specs.Prelude.{is_some};
    ghost use Rattle.desk_ports.specs.Real.{RealShelf};

    ghost Value = { RealShelf };

    ghost view = { λ s. record { is_started = is_some s.file; faults = s.faults } };
}

impl<'a, R: Files> FileShelf<'a, R> {
    pub fn new(rt: &'a R) -> FileShelf<'a, R>
        ensures started { result.is_started ≡ false }
        ensures faults { result.faults ≡ 0 }
    {
        FileShelf {
            rt,
            file: None,
            faults: 0,
        }
    }
}

impl<R: Files> Shelf for FileShelf<'_, R> {
    ghost tells = { false };

    ghost file = { λ _ _. None };

    ghost left = { λ _. [] };

    ghost started = { λ s. s.is_started };

    ghost faults = { λ s. s.faults };

    ghost fails = { λ _ _. false };

    ghost expects = { λ _ _. true };

    ghost asked = { λ _. nothing_asked };

    fn start(&mut self, name: &str) -> Result<(), ShelfFailed> {
        self.file = fs::open(self.rt, name).ok();
        if self.file.is_none() {
            self.faults = raised(self.faults);
            return Err(ShelfFailed);
        }
        Ok(())
    }

    fn take(&mut self, room: &mut [u8]) -> Result<usize, ShelfFailed> {
        match &mut self.file {
            None => unreachable!(),
            Some(file) => match file.read(room) {
                Ok(count) => Ok(count),
                Err(_) => {
                    self.faults = raised(self.faults);
                    Err(ShelfFailed)
                }
            },
        }
    }
}
