//! Keeps blocks in the journal file of the current folder: `journal_bench COUNT SIZE` appends blocks of SIZE bytes until there
//! are COUNT, opens the journal again, and prints how many blocks it has and how many bytes the process read for that.
//! `journal_bench COUNT SIZE kept` reads each block back too.
#![tactic(auto)]

ghost use Rattle.std.specs.Prelude.{IfOk};
ghost use Rattle.report_journal.specs.Disks.{IsLeft};

use anyhow::{Result, anyhow, bail};
use desk_ports::{Disk, FileDisk};
use report_journal::{Journal, frame, open};
use std::alloc::{Alloc, AllocError, Global};
use std::io::Print;
use std::rt::Files;
use std::{env, fs};

const DIGEST: [u8; 32] = [0x5a; 32];

/// Appends a block until there are so many.
fn append_up_to<D: Disk>(
    alloc: Global,
    disk: &mut D,
    journal: Journal,
    block: &[u8],
    count: u32,
) -> Result<Journal>
    requires { IsLeft D.reads D.image disk.old journal }
    ensures { IfOk result (IsLeft D.reads D.image disk.new) }
{
    let mut journal = journal;
    if block.is_empty() || block.len() > 1_048_576 {
        bail!("no block");
    }
    for _i in 0..4_096u32 {
        if journal.count() >= count.min(4_096) {
            break;
        }
        let Ok(ready) = frame(alloc, block) else {
            return Err(AllocError.into());
        };
        match journal.append(disk, ready) {
            Ok((next, _receipt)) => journal = next,
            Err(_failed) => bail!("the disk failed"),
        }
    }
    Ok(journal)
}

/// How many bytes the blocks have.
fn read_back<D: Disk>(alloc: Global, disk: &mut D, journal: &Journal) -> Result<u64>
    requires { IsLeft D.reads D.image disk.old journal.now }
{
    let mut bytes = 0u64;
    for index in 0..journal.count() {
        match journal.kept(alloc, disk, index) {
            Ok(receipt) => bytes = bytes.saturating_add(receipt.block().len() as u64),
            Err(_) => bail!("a block that isn't read"),
        }
    }
    Ok(bytes)
}

/// How many bytes this process has read so far.
fn bytes_read<R: Files + Alloc<A = Global>>(rt: &R) -> Result<u64> {
    let told = fs::read_to_string(rt, "/proc/self/io")?;
    for line in told.lines() {
        if let Some(count) = line.strip_prefix("rchar: ") {
            return Ok(count.parse::<u64>()?);
        }
    }
    bail!("no count")
}

fn number(word: Option<String>) -> Result<u32> {
    let word = word.ok_or_else(|| anyhow!("a number is missing"))?;
    Ok(word.parse::<u32>()?)
}

fn main(rt: HostRuntime) -> Result<()> {
    let alloc = rt.alloc();
    let mut words = env::args(&rt)?.skip(1);
    let count = number(words.next())?;
    let size = number(words.next())?;
    let block = vec![in alloc; b'x'; size as usize]?;
    {
        let mut disk = FileDisk::new(&rt);
        let Ok(journal) = open(&mut disk, DIGEST) else {
            bail!("no journal");
        };
        append_up_to(alloc, &mut disk, journal, &block, count)?;
    }
    let before = bytes_read(&rt)?;
    let mut disk = FileDisk::new(&rt);
    let Ok(journal) = open(&mut disk, DIGEST) else {
        bail!("no journal");
    };
    let opened = bytes_read(&rt)?.saturating_sub(before);
    println!(rt; "{} blocks", journal.count())?;
    if words.next().is_some() {
        let bytes = read_back(alloc, &mut disk, &journal)?;
        println!(rt; "{bytes} bytes of blocks")?;
    } else {
        println!(rt; "{opened} bytes read")?;
    }
    Ok(())
}
