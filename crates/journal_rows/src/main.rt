//! Opens the journals that disks in memory hold, appends to them, and prints what is answered and what the disks then hold:
//! `journal_rows FILE..`. A line of a file is a case, of parts between `|`: `open`, a title and the bytes of a disk, or
//! `stops`, a title, the bytes of a disk and blocks with `,` between them. Bytes are words of hexadecimal digits, where
//! `WORD*COUNT` stands for a word so many times. In a case with stops the blocks that the journal doesn't have yet are
//! appended while the disk fails at its first call, then at its second, until a run meets no failure; and each time the disk
//! is opened again.
#![tactic(auto)]

ghost use Rattle.report_journal.specs.Disks.{IsLeft};

use anyhow::{Result, bail};
use desk_ports::{Disk, MemDisk};
use report_journal::{Journal, OpenError, frame, open};
use std::alloc::{Alloc, AllocError, Global};
use std::io::Print;
use std::{env, fs};

const DIGEST: [u8; 32] = *b"0123456789abcdef0123456789ABCDEF";
// Room for the calls of opening a journal of 4,096 blocks and of reading its last ones.
const CALLS: usize = 40_000;
// Room for what is appended.
const MORE: usize = 1_200_000;

// ---- reading cases

fn bytes_of(alloc: Global, text: &str) -> Result<Vec<u8>> {
    let mut bytes = Vec::new(alloc);
    for word in text.split_whitespace() {
        let mut parts = word.split('*');
        let part = hex::decode(alloc, parts.next().unwrap_or(""))?;
        let count = match parts.next() {
            Some(count) => count.parse::<u32>()?,
            None => 1,
        };
        for _ in 0..count {
            bytes.extend_from_slice(&part)?;
        }
    }
    Ok(bytes)
}

fn blocks_of(alloc: Global, text: &str) -> Result<Vec<Vec<u8>>> {
    let mut blocks = Vec::new(alloc);
    for block in text.split(',') {
        blocks.push(bytes_of(alloc, block)?)?;
    }
    Ok(blocks)
}

// ---- showing what a disk holds

/// All bytes where they are few, else the first and the last.
fn shown(alloc: Global, bytes: &[u8]) -> Result<String> {
    if bytes.len() <= 128 {
        return Ok(hex::encode(alloc, bytes)?);
    }
    let first = bytes.get(..48).unwrap_or(bytes);
    let last = bytes.get(bytes.len().saturating_sub(16)..).unwrap_or(bytes);
    let (first, last) = (hex::encode(alloc, first)?, hex::encode(alloc, last)?);
    Ok(format!(in alloc; "{first}..{last}")?)
}

fn show_disk<R: Print + Alloc<A = Global>>(rt: &R, disk: &MemDisk) -> Result<()> {
    let bytes = disk.bytes();
    let text = shown(rt.alloc(), bytes)?;
    println!(rt; "  disk of {} bytes {text}", bytes.len())?;
    Ok(())
}

/// The first block, the last three and how long each is.
fn show_blocks<R: Print + Alloc<A = Global>, D: Disk>(
    rt: &R,
    disk: &mut D,
    journal: &Journal,
) -> Result<()>
    requires { IsLeft D.reads D.image disk.old journal.now }
{
    let count = journal.count();
    for index in 0..count {
        if index > 0 && index < count.saturating_sub(3) {
            continue;
        }
        match journal.kept(rt.alloc(), disk, index) {
            Ok(receipt) => {
                let block = receipt.block();
                let text = shown(rt.alloc(), block)?;
                println!(rt;
                    "  block {} of {} bytes {text}",
                    receipt.index(),
                    block.len()
                )?;
            }
            Err(_) => bail!("a block that isn't read"),
        }
    }
    Ok(())
}

fn show_refusal<R: Print + Alloc<A = Global>>(rt: &R, refusal: OpenError) -> Result<()> {
    match refusal {
        OpenError::Failed => println!(rt; " failed")?,
        OpenError::OtherInputs { kept } => {
            println!(rt;
                " other inputs {}",
                hex::encode(rt.alloc(), kept.as_slice())?
            )?;
        }
        OpenError::NotJournal { first } => {
            println!(rt;
                " not a journal {}",
                hex::encode(rt.alloc(), first.as_slice())?
            )?;
        }
        OpenError::TooLong { size } => println!(rt; " too long {size}")?,
        OpenError::BrokenRecord { index } => println!(rt; " broken record {index}")?,
    }
    Ok(())
}

/// Opens a disk and shows what comes of it.
fn show_open<R: Print + Alloc<A = Global>>(rt: &R, disk: &mut MemDisk) -> Result<()> {
    match open(disk, DIGEST) {
        Ok(journal) => {
            let calls = disk.asked().calls;
            println!(rt; " {} blocks by {calls} calls", journal.count())?;
            show_blocks(rt, disk, &journal)?;
        }
        Err(refusal) => show_refusal(rt, refusal)?,
    }
    show_disk(rt, disk)
}

// ---- runs

/// How far a run came.
#[derive(Clone, Copy, Drop)]
struct Run {
    opened: bool,
    appended: u32,
    stopped: bool,
}

/// Appends the blocks that the journal doesn't have yet.
fn append_all<D: Disk>(
    alloc: Global,
    disk: &mut D,
    journal: Journal,
    blocks: &[Vec<u8>],
) -> Result<Run>
    requires { IsLeft D.reads D.image disk.old journal }
{
    let mut appended = 0;
    let mut journal = journal;
    let first = journal.count() as usize;
    for block in blocks.iter().skip(first) {
        if block.is_empty() || block.len() > 1_048_576 || journal.count() >= 4_096 {
            bail!("no block");
        }
        let Ok(ready) = frame(alloc, block) else {
            return Err(AllocError.into());
        };
        match journal.append(disk, ready) {
            Ok((next, _receipt)) => journal = next,
            Err(_failed) => {
                return Ok(Run {
                    opened: true,
                    appended,
                    stopped: true,
                });
            }
        }
        appended = appended.saturating_add(1);
    }
    Ok(Run {
        opened: true,
        appended,
        stopped: false,
    })
}

fn append_to(alloc: Global, disk: &mut MemDisk, blocks: &[Vec<u8>]) -> Result<Run> {
    match open(disk, DIGEST) {
        Ok(journal) => append_all(alloc, disk, journal, blocks),
        Err(OpenError::Failed) => Ok(Run {
            opened: false,
            appended: 0,
            stopped: true,
        }),
        Err(_) => bail!("a disk that isn't opened"),
    }
}

fn disk_of(alloc: Global, bytes: &[u8], fails: Vec<u64>) -> Result<MemDisk, AllocError> {
    let room = bytes.len().saturating_add(MORE);
    let disk = MemDisk::new(alloc, bytes.to_vec(alloc)?, room, CALLS, fails);
    disk.map_err(|_| AllocError)
}

fn show_stop<R: Print + Alloc<A = Global>>(rt: &R, run: Run, disk: &MemDisk) -> Result<()> {
    let calls = disk.asked().calls;
    let opened = if run.opened { "opened" } else { "not opened" };
    let stopped = if run.stopped { "stopped" } else { "ended" };
    println!(rt;
        " {opened}, {} appended, {stopped} after {calls} calls",
        run.appended
    )?;
    show_disk(rt, disk)
}

fn show_stops<R: Print + Alloc<A = Global>>(
    rt: &R,
    bytes: &[u8],
    blocks: &[Vec<u8>],
) -> Result<()> {
    let alloc = rt.alloc();
    for stop in 0..1_000u64 {
        let mut disk = disk_of(alloc, bytes, vec![in alloc; stop]?)?;
        let run = append_to(alloc, &mut disk, blocks)?;
        show_stop(rt, run, &disk)?;
        let mut again = disk_of(alloc, disk.bytes(), Vec::new(alloc))?;
        show_open(rt, &mut again)?;
        if !run.stopped {
            break;
        }
    }
    Ok(())
}

fn show_case<R: Print + Alloc<A = Global>>(rt: &R, line: &str) -> Result<()> {
    let alloc = rt.alloc();
    let mut parts = line.split('|');
    let word = parts.next().unwrap_or("");
    println!(rt; "{}", parts.next().unwrap_or(""))?;
    let bytes = bytes_of(alloc, parts.next().unwrap_or(""))?;
    match word {
        "open" => show_open(rt, &mut disk_of(alloc, &bytes, Vec::new(alloc))?),
        "stops" => show_stops(rt, &bytes, &blocks_of(alloc, parts.next().unwrap_or(""))?),
        _ => bail!("no case"),
    }
}

fn main(rt: HostRuntime) -> Result<()> {
    for path in env::args(&rt)?.skip(1) {
        let text = fs::read_to_string(&rt, path.as_str())?;
        for line in text.lines() {
            show_case(&rt, line)?;
        }
    }
    Ok(())
}
