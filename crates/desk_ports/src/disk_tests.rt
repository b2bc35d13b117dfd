use crate::{Disk, DiskAsked, DiskFailed, FileDisk, MemDisk};
use std::alloc::Global;
use std::fs;
use std::test::Fail;

fn memory_disk(
    alloc: Global,
    bytes: &[u8],
    room: usize,
    calls: usize,
    fails: &[u64],
) -> Result<MemDisk, Fail> {
    let disk = MemDisk::new(
        alloc,
        bytes.to_vec(alloc)?,
        room,
        calls,
        fails.to_vec(alloc)?,
    );
    Ok(disk.ok().ok_or("memory")?)
}

// A write, where its place isn't past the end.
fn put(disk: &mut MemDisk, place: u64, piece: &[u8]) -> Result<(), DiskFailed> {
    if place > disk.bytes().len() as u64 {
        return Err(DiskFailed);
    }
    disk.write_at(place, piece)
}

#[test]
fn a_memory_disk_fails_where_it_is_told_and_past_its_room(rt: HostRuntime) -> Result<(), Fail> {
    let mut disk = memory_disk(rt.alloc(), b"abc", 6, 8, &[3])?;
    let mut room = [0; 4];
    assert_eq!(rt; disk.size(), Ok(3));
    assert_eq!(rt; put(&mut disk, 1, b"xyz"), Ok(()));
    assert_eq!(rt; disk.read_at(2, &mut room), Ok(2));
    assert_eq!(rt; room, *b"yz\0\0");
    assert_eq!(rt; disk.sync(), Err(DiskFailed));
    assert_eq!(rt; put(&mut disk, 4, b"123"), Err(DiskFailed));
    assert_eq!(rt; disk.bytes(), b"axyz".as_slice());
    assert_eq!(rt; put(&mut disk, 4, b"12"), Ok(()));
    assert_eq!(rt; disk.sync(), Ok(()));
    assert_eq!(rt; disk.size(), Ok(6));
    assert_eq!(rt; disk.size(), Err(DiskFailed));
    assert_eq!(rt; disk.bytes(), b"axyz12".as_slice());
    let want = DiskAsked {
        calls: 9,
        written: 5,
        end: 7,
    };
    assert_eq!(rt; disk.asked(), want);
    Ok(())
}

// A folder of its name stands where the file would be made; then it is made, and locked.
#[test]
fn a_real_file_is_made_and_locked(rt: HostRuntime) -> Result<(), Fail> {
    fs::create_dir(&rt, "qual.journal")?;
    let mut disk = FileDisk::new(&rt);
    assert_eq!(rt; disk.size(), Err(DiskFailed));
    assert_eq!(rt; disk.write_at(0, b"a"), Err(DiskFailed));
    assert_eq!(rt; disk.sync(), Err(DiskFailed));
    fs::remove_dir(&rt, "qual.journal")?;
    let mut room = [0; 4];
    assert_eq!(rt; disk.size(), Ok(0));
    assert_eq!(rt; disk.write_at(0, b"abc"), Ok(()));
    assert_eq!(rt; disk.write_at(2, b"def"), Ok(()));
    assert_eq!(rt; disk.sync(), Ok(()));
    assert_eq!(rt; disk.read_at(3, &mut room), Ok(2));
    assert_eq!(rt; room, *b"ef\0\0");
    assert_eq!(rt; disk.size(), Ok(5));
    let mut other = FileDisk::new(&rt);
    assert_eq!(rt; other.size(), Err(DiskFailed));
    let content = fs::read(&rt, "qual.journal")?;
    fs::remove_file(&rt, "qual.journal")?;
    assert_eq!(rt; content.as_slice(), b"abdef".as_slice());
    Ok(())
}
