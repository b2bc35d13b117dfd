// Standard output, of which nothing is told.
ghost use Rattle.std.specs.Prelude.{◌≡◌, [], false};

use crate::faults::raised;
use crate::{Sink, SinkFailed};
use std::io;
use std::io::Write;
use std::marker::Model;

/// Standard output.
#[derive(Drop)]
pub struct OutSink<'a, R: Print> {
    rt: &'a R,
    faults: u64,
}

impl<'a, R: Print> Model for OutSink<'a, R> {
    ghost use Rattle.desk_ports.specs.Real.{RealSink};

    ghost Value = { RealSink };

    ghost view = { λ s. record { faults = s.faults } };
}

impl<'a, R: Print> OutSink<'a, R> {
    pub fn new(rt: &'a R) -> OutSink<'a, R>
        ensures { result.faults ≡ 0 }
    {
        OutSink { rt, faults: 0 }
    }
}

impl<R: Print> Sink for OutSink<'_, R> {
    ghost tells = { false };

    ghost written = { λ _. [] };

    ghost room = { λ _. 0 };

    ghost faults = { λ s. s.faults };

    ghost fails = { λ _ _. false };

    ghost calls = { λ _. 0 };

    fn put(&mut self, piece: &[u8]) -> Result<(), SinkFailed> {
        match io::writer(self.rt).write_all(piece) {
            Ok(()) => Ok(()),
            Err(_) => {
                self.faults = raised(self.faults);
                Err(SinkFailed)
            }
        }
    }
}
