// The files that the words name.
ghost use Rattle.std.specs.Prelude.{◌≡◌, ◌≤◌, ◌++◌, ◌∷◌, [], List, ℕ, Some, Result, Err, IsTrue, IsSome, IfOk, IfSome, OnOk, IsErrOf, codes, decimal, length, string_bytes};
ghost use Rattle.liberty_source.specs.declared.Library.{Library};
ghost use Rattle.verilog_source.specs.declared.Source.{Source};
ghost use Rattle.qual_core.specs.Files.{MAX_FILE, IsTold, words_of, refusal_line, IsRefusedFile, IsLibraryRead, IsSourceRead, IsLibrary, IsSource};
ghost use Rattle.qual_core.specs.Command.{file_word};
ghost use Rattle.qual_core.specs.Top.{IsRead, IsLibraryOf, IsSourceOf, Blames, AsksFor};
ghost use Rattle.qual_core.specs.declared.files.Failure.TheVariants.{NoMemory};
ghost use Rattle.desk_ports.specs.Faults.{NoneFails};

use crate::command::FileOption;
use desk_ports::{ReadRefusal, Shelf, read_file};
use liberty_reader::read_library;
use liberty_source::Library;
use std::alloc::{AllocError, Global};
use text_scan::{FileRefusal, Limits, Text};
use verilog_reader::read_source;
use verilog_source::Source;

// The most bytes of a file.
const MAX_BYTES: u64 = 134_217_728;

/// Why there is nothing to answer.
#[derive(Clone, Copy, Debug, PartialEq, Eq)]
pub(crate) enum Failure {
    /// The shelf has failed.
    ReadFault,
    NoMemory,
}

impl From<AllocError> for Failure {
    ghost from_gives = { λ _ e. e ≡ NoMemory };

    fn from(_: AllocError) -> Self {
        Failure::NoMemory
    }
}

// ---- refused files

fn number(alloc: Global, n: u32) -> Result<String, Failure>
    ensures ok { IfOk result (λ s. string_bytes s ≡ decimal n) }
    ensures cause { IsErrOf result Failure.ReadFault → ⊥ }
{
    Ok(format!(in alloc; "{n}")?)
}

fn put(text: &mut Vec<u8>, piece: &[u8]) -> Result<(), Failure>
    ensures ok { OnOk result (text.new.items ≡ text.old.items ++ piece.now) }
    ensures cause { IsErrOf result Failure.ReadFault → ⊥ }
{
    text.extend_from_slice(piece)?;
    Ok(())
}

// Appends three pieces and a number.
fn put_counted(
    alloc: Global,
    text: &mut Vec<u8>,
    front: &str,
    word: &[u8],
    middle: &str,
    n: u32,
) -> Result<(), Failure>
    ensures ok { OnOk result (text.new.items ≡ text.old.items ++ front.now ++ word.now ++ middle.now ++ decimal n) }
    ensures cause { IsErrOf result Failure.ReadFault → ⊥ }
{
    put(text, front.as_bytes())?;
    put(text, word)?;
    put(text, middle.as_bytes())?;
    put(text, number(alloc, n)?.as_bytes())
}

fn put_refusal(alloc: Global, text: &mut Vec<u8>, refusal: &FileRefusal) -> Result<(), Failure>
    ensures ok { OnOk result (text.new.items ≡ text.old.items ++ words_of refusal.now) }
    ensures told { OnOk result (IsTold refusal.now) }
    ensures cause { IsErrOf result Failure.ReadFault → ⊥ }
{
    match refusal {
        FileRefusal::NoMemory => Err(Failure::NoMemory),
        FileRefusal::Syntax { line, column } => {
            let line = number(alloc, *line)?;
            put_counted(
                alloc,
                text,
                "syntax line ",
                line.as_bytes(),
                " column ",
                *column,
            )
        }
        FileRefusal::TooMany { kind, number } => {
            put_counted(
                alloc,
                text,
                "too many ",
                kind.word().as_bytes(),
                " ",
                *number,
            )
        }
        FileRefusal::DoubleName { name, line } => {
            put_counted(
                alloc,
                text,
                "double name ",
                name.as_bytes(),
                " line ",
                *line,
            )
        }
    }
}

// What stands before the words of a refusal.
fn refusal_front(alloc: Global, file: FileOption) -> Result<Vec<u8>, Failure>
    ensures ok { IfOk result (λ front. front.items ≡ codes "refused " ++ file_word file ++ codes " ") }
    ensures cause { IsErrOf result Failure.ReadFault → ⊥ }
{
    let mut text = Vec::new(alloc);
    put(&mut text, b"refused ")?;
    put(&mut text, file.word().as_bytes())?;
    put(&mut text, b" ")?;
    Ok(text)
}

fn refused_line(alloc: Global, file: FileOption, refusal: &FileRefusal) -> Result<Text, Failure>
    ensures line { IfOk result (λ line. line ≡ refusal_line file (words_of refusal.now)) }
    ensures told { IfOk result (λ line. IsTold refusal.now) }
    ensures cause { IsErrOf result Failure.ReadFault → ⊥ }
{
    let mut text = refusal_front(alloc, file)?;
    put_refusal(alloc, &mut text, refusal)?;
    put(&mut text, b"\n")?;
    Ok(Text::from_vec(text))
}

fn long_line(alloc: Global, file: FileOption) -> Result<Text, Failure>
    ensures line { IfOk result (λ line. line ≡ refusal_line file (codes "too long")) }
    ensures cause { IsErrOf result Failure.ReadFault → ⊥ }
{
    let mut text = refusal_front(alloc, file)?;
    put(&mut text, b"too long")?;
    put(&mut text, b"\n")?;
    Ok(Text::from_vec(text))
}

// ---- the bytes of a file

// None where it is too long.
fn read_within<S: Shelf>(
    alloc: Global,
    shelf: &mut S,
    name: &str,
) -> Result<Option<Vec<u8>>, Failure>
    ensures read { IsTrue S.tells → IfOk result (λ bytes. IsRead (S.file shelf.old name.now) bytes) }
    ensures fits { IfOk result (λ bytes. IfSome bytes (λ b. length b.items ≤ MAX_FILE)) }
    ensures cause { Blames (IsErrOf result Failure.ReadFault) (S.faults shelf.old) (S.faults shelf.new) }
    ensures succeeds { IsTrue S.tells → NoneFails (S.fails shelf.old)
        → IsSome (S.file shelf.old name.now) → IsErrOf result Failure.ReadFault → ⊥ }
    ensures asked { IsTrue S.tells → AsksFor (name.now ∷ []) (S.file shelf.old)
        (S.expects shelf.old) (S.asked shelf.old) (S.asked shelf.new) }
    ensures files { S.file shelf.new ≡ S.file shelf.old }
    ensures fails { S.fails shelf.new ≡ S.fails shelf.old }
    ensures expects { S.expects shelf.new ≡ S.expects shelf.old }
{
    match read_file(alloc, shelf, name, MAX_BYTES) {
        Ok(bytes) => Ok(Some(bytes)),
        Err(ReadRefusal::TooLong) => Ok(None),
        Err(ReadRefusal::Failed) => Err(Failure::ReadFault),
        Err(ReadRefusal::NoMemory) => Err(Failure::NoMemory),
    }
}

fn library_in(alloc: Global, bytes: &[u8]) -> Result<Result<Library, Text>, Failure>
    requires { length bytes.now ≤ MAX_FILE }
    ensures read { IfOk result (λ read. IsLibraryRead bytes.now read) }
    ensures only { IfOk result (λ read. (other : Result Library (List ℕ)) → IsLibraryRead bytes.now other → other ≡ read) }
    ensures cause { IsErrOf result Failure.ReadFault → ⊥ }
{
    match read_library(alloc, bytes, &Limits::standard()) {
        Ok(library) => Ok(Ok(library)),
        Err(refusal) => Ok(Err(refused_line(alloc, FileOption::Liberty, &refusal)?)),
    }
}

fn source_in(alloc: Global, bytes: &[u8]) -> Result<Result<Source, Text>, Failure>
    requires { length bytes.now ≤ MAX_FILE }
    ensures read { IfOk result (λ read. IsSourceRead bytes.now read) }
    ensures only { IfOk result (λ read. (other : Result Source (List ℕ)) → IsSourceRead bytes.now other → other ≡ read) }
    ensures cause { IsErrOf result Failure.ReadFault → ⊥ }
{
    match read_source(alloc, bytes, &Limits::standard()) {
        Ok(source) => Ok(Ok(source)),
        Err(refusal) => Ok(Err(refused_line(alloc, FileOption::Verilog, &refusal)?)),
    }
}

/// The library of a file, or the line of its refusal.
pub(crate) fn read_liberty<S: Shelf>(
    alloc: Global,
    shelf: &mut S,
    name: &str,
) -> Result<Result<Library, Text>, Failure>
    ensures read { IsTrue S.tells → IfOk result (λ read. IsLibraryOf (S.file shelf.old name.now) read) }
    ensures cause { Blames (IsErrOf result Failure.ReadFault) (S.faults shelf.old) (S.faults shelf.new) }
    ensures succeeds { IsTrue S.tells → NoneFails (S.fails shelf.old)
        → IsSome (S.file shelf.old name.now) → IsErrOf result Failure.ReadFault → ⊥ }
    ensures asked { IsTrue S.tells → AsksFor (name.now ∷ []) (S.file shelf.old)
        (S.expects shelf.old) (S.asked shelf.old) (S.asked shelf.new) }
    ensures files { S.file shelf.new ≡ S.file shelf.old }
    ensures fails { S.fails shelf.new ≡ S.fails shelf.old }
    ensures expects { S.expects shelf.new ≡ S.expects shelf.old }
{
    match read_within(alloc, shelf, name)? {
        Some(bytes) => library_in(alloc, &bytes),
        None => Ok(Err(long_line(alloc, FileOption::Liberty)?)),
    }
}

/// The source text of a file, or the line of its refusal.
pub(crate) fn read_verilog<S: Shelf>(
    alloc: Global,
    shelf: &mut S,
    name: &str,
) -> Result<Result<Source, Text>, Failure>
    ensures read { IsTrue S.tells → IfOk result (λ read. IsSourceOf (S.file shelf.old name.now) read) }
    ensures cause { Blames (IsErrOf result Failure.ReadFault) (S.faults shelf.old) (S.faults shelf.new) }
    ensures succeeds { IsTrue S.tells → NoneFails (S.fails shelf.old)
        → IsSome (S.file shelf.old name.now) → IsErrOf result Failure.ReadFault → ⊥ }
    ensures asked { IsTrue S.tells → AsksFor (name.now ∷ []) (S.file shelf.old)
        (S.expects shelf.old) (S.asked shelf.old) (S.asked shelf.new) }
    ensures files { S.file shelf.new ≡ S.file shelf.old }
{
    match read_within(alloc, shelf, name)? {
        Some(bytes) => source_in(alloc, &bytes),
        None => Ok(Err(long_line(alloc, FileOption::Verilog)?)),
    }
}
