// The top call.
ghost use Rattle.std.specs.Prelude.{◌≡◌, ◌≢◌, ◌<◌, ◌++◌, ◌∷◌, ◌⊎◌, [], None, Some, IsTrue, IfOk, IsErrOf, get_or, length};
ghost use Rattle.desk_ports.specs.Faults.{NoneFails};
ghost use Rattle.compare_text.specs.Blocks.{SaysEqualTruly};
ghost use Rattle.qual_core.specs.Command.{texts, command_of, names, word_at};
ghost use Rattle.qual_core.specs.Outcome.{usage, totals_status, IsCompared, refused, IsCompareReply, IsOutcome};
ghost use Rattle.qual_core.specs.declared.reply.Reply.{Reply};
ghost use Rattle.text_scan.specs.declared.limits.Limits.{Limits};
ghost use Rattle.liberty_source.specs.Library.{IsLibrary};
ghost use Rattle.verilog_source.specs.Source.{IsSource};
ghost use Rattle.qual_core.specs.Top.{Blames, AsksFor, IsVerdict, IsDoneOrFaulty, IsUsageOrVerdict, NoCountRose, UsageExactly, AnswersExactly, JudgesExactly, Writes, WritesTruly, IsCompare, IsEqualLibrary, AreAccepted, IsWhole, HasRoom, IsCompareAnswer, IsAnswerTo};
ghost use Rattle.qual_core.specs.declared.files.Failure.TheVariants.{NoMemory};

use crate::command::{Command, CommandName, command_of};
use crate::files::{Failure, read_liberty, read_verilog};
use crate::reply::{Reply, Status};
use cell_compare::Models;
use compare_text::{Totals, compare_library};
use desk_ports::{Shelf, Sink};
use liberty_source::Library;
use std::alloc::Global;
use text_scan::Text;
use verilog_source::Source;

const USAGE: &str = "usage: qual compare|check|replay|serve|sample --option value\n";

impl From<text_scan::NoMemory> for Failure {
    ghost from_gives = { λ _ e. e ≡ NoMemory };

    fn from(_: text_scan::NoMemory) -> Self {
        Failure::NoMemory
    }
}

fn reply_with(alloc: Global, status: Status, text: &str) -> Result<Reply, Failure>
    ensures ok { IfOk result (λ reply. reply ≡ record { status = status; text = text.now }) }
    ensures cause { IsErrOf result Failure.ReadFault → ⊥ }
{
    Ok(Reply {
        status,
        text: Text::from_bytes(alloc, text.as_bytes())?,
    })
}

fn totals_status(totals: Totals) -> Status
    ensures { result ≡ totals_status totals }
{
    if totals.differs == 0 && totals.refused == 0 {
        Status::Done
    } else {
        Status::Faulty
    }
}

// The reply for a library beside a source text.
fn compared(alloc: Global, library: &Library, source: Source) -> Result<Reply, Failure>
    ensures compared { IfOk result (IsCompared library.now source) }
    ensures verdict { IfOk result (λ reply. IsDoneOrFaulty reply.status) }
    ensures truly { IfOk result (λ reply. (limits : Limits) → IsLibrary limits library.now → IsSource limits source
        → SaysEqualTruly library.now source reply.text) }
    ensures cause { IsErrOf result Failure.ReadFault → ⊥ }
{
    let models = Models::new(alloc, source)?;
    let report = compare_library(alloc, library, &models)?;
    Ok(Reply {
        status: totals_status(report.totals),
        text: report.text,
    })
}

fn refused(line: Text) -> Reply
    ensures { result ≡ refused line }
{
    Reply {
        status: Status::FileRefused,
        text: line,
    }
}

fn compare_files<S: Shelf>(
    alloc: Global,
    shelf: &mut S,
    liberty: &str,
    verilog: &str,
) -> Result<Reply, Failure>
    ensures reply { IsTrue S.tells
        → IfOk result (IsCompareAnswer liberty.now verilog.now (S.file shelf.old)) }
    ensures verdict { IfOk result (λ reply. IsVerdict reply.status) }
    ensures cause { Blames (IsErrOf result Failure.ReadFault) (S.faults shelf.old) (S.faults shelf.new) }
    ensures succeeds { IsTrue S.tells → NoneFails (S.fails shelf.old)
        → (reply : Reply) → IsCompareReply liberty.now verilog.now (S.file shelf.old) reply → IsErrOf result Failure.ReadFault → ⊥ }
    ensures none_missing { IsTrue S.tells → (reply : Reply) → IsCompareReply liberty.now verilog.now (S.file shelf.old) reply
        → (S.asked shelf.new).missing ≡ (S.asked shelf.old).missing }
    ensures asked { IsTrue S.tells → AsksFor (liberty.now ∷ verilog.now ∷ []) (S.file shelf.old)
        (S.expects shelf.old) (S.asked shelf.old) (S.asked shelf.new) }
    ensures files { S.file shelf.new ≡ S.file shelf.old }
{
    let library = match read_liberty(alloc, shelf, liberty)? {
        Ok(library) => library,
        Err(line) => return Ok(refused(line)),
    };
    match read_verilog(alloc, shelf, verilog)? {
        Ok(source) => compared(alloc, &library, source),
        Err(line) => Ok(refused(line)),
    }
}

// The place among the words of the name of the file with this index in reading order.
fn file_place(words: &[String], command: &Command, index: usize) -> usize
    requires command { command_of (texts words.now) ≡ Some command.now }
    requires index { index < length command.now.files }
    ensures within { result < length words.now }
    ensures name { word_at (texts words.now) result ≡ get_or (names (texts words.now)) index [] }
{
    command.files.as_slice()[index].1
}

#[tactic(auto, using(crate::proofs::Places::text_at))]
// The name of the file with this index in reading order.
fn file_name<'a>(words: &'a [String], command: &Command, index: usize) -> &'a str
    requires command { command_of (texts words.now) ≡ Some command.now }
    requires index { index < length command.now.files }
    ensures { result.now ≡ get_or (names (texts words.now)) index [] }
{
    words[file_place(words, command, index)].as_str()
}

// Compares the two files that the words name.
fn compare_named<S: Shelf>(
    alloc: Global,
    shelf: &mut S,
    words: &[String],
    command: &Command,
) -> Result<Reply, Failure>
    requires { command_of (texts words.now) ≡ Some command.now }
    ensures reply { IsTrue S.tells → IfOk result (IsAnswerTo (texts words.now) (S.file shelf.old)) }
    ensures verdict { IfOk result (λ reply. IsVerdict reply.status) }
    ensures cause { Blames (IsErrOf result Failure.ReadFault) (S.faults shelf.old) (S.faults shelf.new) }
    ensures succeeds { IsTrue S.tells → NoneFails (S.fails shelf.old)
        → (reply : Reply) → IsOutcome (texts words.now) (S.file shelf.old) reply → IsErrOf result Failure.ReadFault → ⊥ }
    ensures none_missing { IsTrue S.tells → (reply : Reply) → IsOutcome (texts words.now) (S.file shelf.old) reply
        → (S.asked shelf.new).missing ≡ (S.asked shelf.old).missing }
    ensures asked { IsTrue S.tells → AsksFor (names (texts words.now)) (S.file shelf.old)
        (S.expects shelf.old) (S.asked shelf.old) (S.asked shelf.new) }
    ensures files { S.file shelf.new ≡ S.file shelf.old }
{
    let liberty = file_name(words, command, 0);
    let verilog = file_name(words, command, 1);
    compare_files(alloc, shelf, liberty, verilog)
}

// What is to be answered and written for the words.
fn reply_to<S: Shelf>(alloc: Global, words: &[String], shelf: &mut S) -> Result<Reply, Failure>
    ensures reply { IsTrue S.tells → IfOk result (IsAnswerTo (texts words.now) (S.file shelf.old)) }
    ensures status { IfOk result (λ reply. IsUsageOrVerdict (command_of (texts words.now)) reply) }
    ensures cause { Blames (IsErrOf result Failure.ReadFault) (S.faults shelf.old) (S.faults shelf.new) }
    ensures no_command { command_of (texts words.now) ≡ None → IsErrOf result Failure.ReadFault → ⊥ }
    ensures succeeds { IsTrue S.tells → NoneFails (S.fails shelf.old)
        → (reply : Reply) → IsOutcome (texts words.now) (S.file shelf.old) reply → IsErrOf result Failure.ReadFault → ⊥ }
    ensures none_missing { IsTrue S.tells → (reply : Reply) → IsOutcome (texts words.now) (S.file shelf.old) reply
        → (S.asked shelf.new).missing ≡ (S.asked shelf.old).missing }
    ensures asked { IsTrue S.tells → AsksFor (names (texts words.now)) (S.file shelf.old)
        (S.expects shelf.old) (S.asked shelf.old) (S.asked shelf.new) }
    ensures files { S.file shelf.new ≡ S.file shelf.old }
{
    let Some(command) = command_of(alloc, words)? else {
        return reply_with(alloc, Status::Usage, USAGE);
    };
    match command.name {
        CommandName::Compare => compare_named(alloc, shelf, words, &command),
    }
}

/// Does what the words say: it reads the files that they name, and writes one text.
///
/// It writes the usage line where the words are no command, and the line of a refused file where one is too long or
/// isn't read. Else it compares the cells of the library with the modules of their names, each on its own. It starts
/// each file that the words name at most once, no other one, and takes at most 134,217,729 bytes of each.
pub fn qual<S: Shelf, K: Sink>(
    alloc: Global,
    words: &[String],
    shelf: &mut S,
    out: &mut K,
) -> Status
    // Where a line that was written says that a cell is equal, it is: each output that Liberty defines has its value in
    // Verilog, at every vector of input values.
    ensures equal { IsTrue S.tells → IsTrue K.tells
        → WritesTruly (texts words.now) (S.file shelf.old) (K.written out.old) (K.written out.new) }

    // Done comes only where each cell of the library is equal.
    ensures done_is_equal { IsTrue S.tells → IsCompare (command_of (texts words.now)) → result ≡ Status.Done
        → IsEqualLibrary (texts words.now) (S.file shelf.old) }

    // The bytes written are those of the outcome, of which there is one.
    ensures text { IsTrue S.tells → IsTrue K.tells → Writes result
        (IsOutcome (texts words.now) (S.file shelf.old)) (K.written out.old) (K.written out.new) }
    ensures usage_line { IsTrue K.tells → result ≡ Status.Usage
        → K.written out.new ≡ K.written out.old ++ usage.text }

    // Each status has its cause. Those of a fault come where the count of the device rose.
    ensures read_fault { Blames (result ≡ Status.ReadFault) (S.faults shelf.old) (S.faults shelf.new) }
    ensures write_fault { Blames (result ≡ Status.WriteFault) (K.faults out.old) (K.faults out.new) }
    ensures usage { UsageExactly result (command_of (texts words.now)) (NoCountRose
        (S.faults shelf.old) (S.faults shelf.new) (K.faults out.old) (K.faults out.new)) }
    ensures answer { IsTrue S.tells → AnswersExactly result (texts words.now) (S.file shelf.old) (NoCountRose
        (S.faults shelf.old) (S.faults shelf.new) (K.faults out.old) (K.faults out.new)) }

    // Done says that each cell was found equal, and Faulty that one wasn't.
    ensures verdict { IsTrue S.tells → IsCompare (command_of (texts words.now)) → JudgesExactly result (texts words.now) (S.file shelf.old) (NoCountRose
        (S.faults shelf.old) (S.faults shelf.new) (K.faults out.old) (K.faults out.new)) }

    // Two files that are accepted are compared, and the whole text is written.
    ensures complete { IsTrue S.tells → IsTrue K.tells → AreAccepted (texts words.now) (S.file shelf.old)
        → NoCountRose (S.faults shelf.old) (S.faults shelf.new) (K.faults out.old) (K.faults out.new)
        → (result ≡ Status.NoMemory) ⊎ IsWhole result (IsOutcome (texts words.now) (S.file shelf.old))
        (K.written out.old) (K.written out.new) }

    // No device fails by itself where none is told to. There is an outcome where each file that is started is there, so
    // no file is started after one that is refused.
    ensures no_read_fault { IsTrue S.tells → NoneFails (S.fails shelf.old)
        → (reply : Reply) → IsOutcome (texts words.now) (S.file shelf.old) reply → result ≢ Status.ReadFault }
    ensures no_write_fault { IsTrue S.tells → IsTrue K.tells → NoneFails (K.fails out.old)
        → HasRoom (IsOutcome (texts words.now) (S.file shelf.old)) (K.room out.old)
        → result ≢ Status.WriteFault }

    // What is asked of the shelf, and what stays.
    ensures asked { IsTrue S.tells → AsksFor (names (texts words.now)) (S.file shelf.old)
        (S.expects shelf.old) (S.asked shelf.old) (S.asked shelf.new) }
    ensures none_missing { IsTrue S.tells → (reply : Reply) → IsOutcome (texts words.now) (S.file shelf.old) reply
        → (S.asked shelf.new).missing ≡ (S.asked shelf.old).missing }
    ensures files { S.file shelf.new ≡ S.file shelf.old }
{
    match reply_to(alloc, words, shelf) {
        Err(Failure::ReadFault) => Status::ReadFault,
        Err(Failure::NoMemory) => Status::NoMemory,
        Ok(reply) => match out.put(reply.text.as_bytes()) {
            Ok(()) => reply.status,
            Err(_) => Status::WriteFault,
        },
    }
}
