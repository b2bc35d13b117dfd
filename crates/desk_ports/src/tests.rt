use crate::{
    Asked, FileShelf, MemShelf, MemSink, OutSink, ReadRefusal, Shelf, ShelfFailed, Sink,
    SinkFailed, read_file,
};
use std::alloc::{AllocError, Global};
use std::fs;
use std::test::Fail;

// A shelf with one file of 5,000 bytes, which takes a start and three calls of take to read, and
// one of 3 bytes.
fn two_files(alloc: Global, fails: &[u64]) -> Result<MemShelf, AllocError> {
    let files = vec![in alloc;
        ("long".to_string(alloc)?, vec![in alloc; 7u8; 5000]?),
        ("short".to_string(alloc)?, b"abc".to_vec(alloc)?),
        ("short".to_string(alloc)?, b"never".to_vec(alloc)?),
    ]?;
    Ok(MemShelf::new(files, fails.to_vec(alloc)?))
}

#[test]
fn a_file_is_read_whole_up_to_its_limit(rt: HostRuntime) -> Result<(), Fail> {
    let alloc = rt.alloc();
    let cases = [
        ("short", 3, Ok(3)),
        ("short", u64::MAX, Ok(3)),
        ("short", 2, Err(ReadRefusal::TooLong)),
        ("short", 0, Err(ReadRefusal::TooLong)),
        ("long", 5000, Ok(5000)),
        ("long", 4999, Err(ReadRefusal::TooLong)),
        ("other", 5000, Err(ReadRefusal::Failed)),
    ];
    for (name, max, want) in cases {
        let mut shelf = two_files(alloc, &[])?;
        let length = read_file(alloc, &mut shelf, name, max).map(|bytes| bytes.len());
        assert_eq!(rt; length, want, "{name} {max}");
    }
    let mut shelf = two_files(alloc, &[])?;
    let bytes = read_file(alloc, &mut shelf, "short", 3)
        .ok()
        .ok_or("short")?;
    assert_eq!(rt; bytes.as_slice(), b"abc".as_slice());
    Ok(())
}

#[test]
fn a_failure_at_any_call_is_told(rt: HostRuntime) -> Result<(), Fail> {
    let alloc = rt.alloc();
    for call in 0..4 {
        let mut shelf = two_files(alloc, &[call])?;
        let length = read_file(alloc, &mut shelf, "long", 5000).map(|bytes| bytes.len());
        assert_eq!(rt; length, Err(ReadRefusal::Failed), "call {call}");
        assert_eq!(rt; shelf.asked().calls, call + 1);
    }
    let mut shelf = two_files(alloc, &[4])?;
    let length = read_file(alloc, &mut shelf, "long", 5000).map(|bytes| bytes.len());
    assert_eq!(rt; length, Ok(5000));
    assert_eq!(rt; shelf.start("short"), Err(ShelfFailed));
    Ok(())
}

#[test]
fn a_shelf_tells_what_was_asked(rt: HostRuntime) -> Result<(), Fail> {
    let alloc = rt.alloc();
    let names = vec![in alloc; "short".to_string(alloc)?, "other".to_string(alloc)?]?;
    let mut shelf = two_files(alloc, &[])?.expecting(names);
    let _ = read_file(alloc, &mut shelf, "long", 4000);
    let _ = read_file(alloc, &mut shelf, "other", 9);
    let _ = read_file(alloc, &mut shelf, "short", 9);
    let want = Asked {
        calls: 6,
        starts: 3,
        missing: 1,
        unexpected: 1,
        since: 3,
        most: 4001,
    };
    assert_eq!(rt; shelf.asked(), want);
    Ok(())
}

#[test]
fn a_sink_keeps_a_first_part(rt: HostRuntime) -> Result<(), Fail> {
    let alloc = rt.alloc();
    for (fails, want) in [(0u64, ""), (1, "ab"), (2, "abcd"), (3, "abcde")] {
        let mut sink = MemSink::new(alloc, 5, vec![in alloc; fails]?)
            .ok()
            .ok_or("memory")?;
        let mut failed = false;
        for piece in ["ab", "cd", "ef"] {
            if !failed {
                failed = sink.put(piece.as_bytes()).is_err();
            }
        }
        assert!(rt; failed);
        assert_eq!(rt; sink.written(), want.as_bytes(), "call {fails}");
    }
    let mut sink = MemSink::new(alloc, 4, Vec::new(alloc))
        .ok()
        .ok_or("memory")?;
    assert_eq!(rt; sink.put(b"ab"), Ok(()));
    assert_eq!(rt; sink.put(b"cd"), Ok(()));
    assert_eq!(rt; sink.put(b"e"), Err(SinkFailed));
    assert_eq!(rt; sink.written(), b"abcd".as_slice());
    Ok(())
}

#[test]
fn real_files_are_read(rt: HostRuntime) -> Result<(), Fail> {
    let alloc = rt.alloc();
    let name = "desk_ports_real_file";
    let mut content = Vec::new(alloc);
    for k in 0..5000u32 {
        content.push((k % 251) as u8)?;
    }
    fs::write(&rt, name, content.as_slice())?;
    let mut shelf = FileShelf::new(&rt);
    let whole = read_file(alloc, &mut shelf, name, 5000)?;
    let long = read_file(alloc, &mut shelf, name, 4999).map(|bytes| bytes.len());
    let folder = read_file(alloc, &mut shelf, ".", 4999).map(|bytes| bytes.len());
    fs::remove_file(&rt, name)?;
    let missing = read_file(alloc, &mut shelf, name, 5000).map(|bytes| bytes.len());
    assert_eq!(rt; whole.as_slice(), content.as_slice());
    assert_eq!(rt; long, Err(ReadRefusal::TooLong));
    assert_eq!(rt; folder, Err(ReadRefusal::Failed));
    assert_eq!(rt; missing, Err(ReadRefusal::Failed));
    Ok(())
}

#[test]
fn standard_output_is_written(rt: HostRuntime) {
    let mut out = OutSink::new(&rt);
    assert_eq!(rt; out.put(b"a line\n"), Ok(()));
}
