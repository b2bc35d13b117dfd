//! The program: the top call over real files and standard output.
#![tactic(auto)]

use desk_ports::{FileShelf, OutSink};
use qual_core::{Status, qual};
use std::alloc::{Alloc, Global};
use std::env::{self, Env};
use std::io::ErrorKind;
use std::process::ExitCode;

/// The exit status where the system doesn't give the words as text.
const NO_WORDS: u8 = 10;

// The words behind the program's name, or the exit status where there are none to be had.
fn words_of<R: Env + Alloc<A = Global>>(rt: &R) -> Result<Vec<String>, u8> {
    let args = match env::args(rt) {
        Ok(args) => args,
        Err(error) if error.kind() == ErrorKind::OutOfMemory => {
            return Err(Status::NoMemory.number());
        }
        Err(_) => return Err(NO_WORDS),
    };
    let mut words = Vec::new(rt.alloc());
    for word in args.skip(1) {
        if words.push(word).is_err() {
            return Err(Status::NoMemory.number());
        }
    }
    Ok(words)
}

fn main(rt: HostRuntime) -> ExitCode {
    let number = match words_of(&rt) {
        Ok(words) => {
            let mut shelf = FileShelf::new(&rt);
            let mut out = OutSink::new(&rt);
            qual(rt.alloc(), &words, &mut shelf, &mut out).number()
        }
        Err(number) => number,
    };
    ExitCode::from(number)
}
