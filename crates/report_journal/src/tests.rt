use crate::{OpenError, frame, open};
use desk_ports::MemDisk;
use std::alloc::Global;
use std::test::Fail;

const DIGEST: [u8; 32] = *b"0123456789abcdef0123456789ABCDEF";

const BLOCK: &[u8] = b"cell S0\ncheck full\nrows 2\ndefined 2\nverdict qualified\n";

const JOURNAL: &[u8] =
    b"\x01QUALJRN10123456789abcdef0123456789ABCDEF\x01\0\0\0\x36cell S0\ncheck full\nrows 2\ndefined 2\nverdict qualified\n\0";

fn disk_of(alloc: Global, bytes: &[u8]) -> Result<MemDisk, Fail> {
    Ok(MemDisk::new(alloc, bytes.to_vec(alloc)?, 101, 30, Vec::new(alloc))?)
}

#[test]
fn a_block_is_appended_and_read_back(rt: HostRuntime) -> Result<(), Fail> {
    let alloc = rt.alloc();
    let mut disk = disk_of(alloc, b"")?;
    let journal = open(&mut disk, DIGEST)?;
    assert_eq!(rt; journal.count(), 0);
    let ready = frame(alloc, BLOCK)?;
    let (journal, receipt) = journal.append(&mut disk, ready)?;
    assert_eq!(rt; journal.count(), 1);
    assert_eq!(rt; receipt.index(), 0);
    assert_eq!(rt; receipt.block(), BLOCK);
    assert_eq!(rt; disk.bytes(), JOURNAL);
    let kept = journal.kept(alloc, &mut disk, 0)?;
    assert_eq!(rt; kept.index(), 0);
    assert_eq!(rt; kept.block(), BLOCK);
    let again = open(&mut disk, DIGEST)?;
    assert_eq!(rt; again.count(), 1);
    Ok(())
}

#[test]
fn a_disk_of_zeros_has_no_journal_yet(rt: HostRuntime) -> Result<(), Fail> {
    let mut disk = disk_of(rt.alloc(), &[0; 42])?;
    let journal = open(&mut disk, DIGEST)?;
    assert_eq!(rt; journal.count(), 0);
    Ok(())
}

#[test]
fn a_record_that_is_cut_is_broken(rt: HostRuntime) -> Result<(), Fail> {
    assert_eq!(rt; JOURNAL.len(), 101);
    let mut disk = disk_of(rt.alloc(), &JOURNAL[..61])?;
    let refusal = open(&mut disk, DIGEST).err();
    assert_eq!(rt; refusal, Some(OpenError::BrokenRecord { index: 0 }));
    assert_eq!(rt; disk.bytes(), &JOURNAL[..61]);
    Ok(())
}
