use crate::command::Command;
use crate::{CommandName, Status, command_of, qual};
use desk_ports::{MemShelf, MemSink};
use std::alloc::{AllocError, Global};
use std::test::Fail;

const LIBERTY: &[u8] =
    b"library(t){cell(INV){pin(A){direction:input;}pin(Y){direction:output;function:\"!A\";}}}";

const VERILOG: &[u8] = b"module INV(A,Y);input A;output Y;not(Y,A);endmodule";

const BUFFER: &[u8] = b"module INV(A,Y);input A;output Y;buf(Y,A);endmodule";

const EQUAL: &[u8] =
    b"compare INV\nvectors 2\ndefined 2\nverdict equal\ntotal equal 1 differs 0 refused 0\nend\n";

const DIFFERS: &[u8] =
    b"compare INV\nvectors 2\ndefined 2\nfinding M1 Y verilog row 1 change - liberty 1 view 0\nverdict differs\ntotal equal 0 differs 1 refused 0\nend\n";

const USAGE: &[u8] = b"usage: qual compare|check|replay|serve|sample --option value\n";

const WORDS: [&str; 5] = ["compare", "--verilog", "b", "--liberty", "a"];

fn words_of(alloc: Global, words: &[&str]) -> Result<Vec<String>, AllocError> {
    let mut all = Vec::new(alloc);
    for word in words {
        all.push(word.to_string(alloc)?)?;
    }
    Ok(all)
}

// A shelf of the files a and b.
fn shelf_of(alloc: Global, a: &[u8], b: &[u8], fails: &[u64]) -> Result<MemShelf, AllocError> {
    let files = vec![in alloc;
        ("a".to_string(alloc)?, a.to_vec(alloc)?),
        ("b".to_string(alloc)?, b.to_vec(alloc)?),
    ]?;
    Ok(MemShelf::new(files, fails.to_vec(alloc)?))
}

#[test]
fn two_files_are_compared(rt: HostRuntime) -> Result<(), Fail> {
    let alloc = rt.alloc();
    let cases = [
        (LIBERTY, VERILOG, Status::Done, EQUAL),
        (LIBERTY, BUFFER, Status::Faulty, DIFFERS),
        (
            LIBERTY,
            LIBERTY,
            Status::FileRefused,
            b"refused verilog syntax line 1 column 1\n".as_slice(),
        ),
        (
            VERILOG,
            VERILOG,
            Status::FileRefused,
            b"refused liberty syntax line 1 column 1\n".as_slice(),
        ),
    ];
    let words = words_of(alloc, &WORDS)?;
    for (liberty, verilog, status, text) in cases {
        let mut shelf = shelf_of(alloc, liberty, verilog, &[])?.expecting(words_of(
            alloc,
            &["a", "b"],
        )?);
        let mut out = MemSink::new(alloc, 200, Vec::new(alloc))?;
        assert_eq!(rt; qual(alloc, &words, &mut shelf, &mut out), status);
        assert_eq!(rt; out.written(), text);
        assert_eq!(rt; shelf.asked().unexpected, 0);
    }
    Ok(())
}

#[test]
fn other_words_get_the_usage_line(rt: HostRuntime) -> Result<(), Fail> {
    let alloc = rt.alloc();
    let cases: [&[&str]; 7] = [
        &[],
        &["check", "--liberty", "a", "--verilog", "b"],
        &["compare", "--liberty", "a"],
        &["compare", "--liberty", "a", "--liberty", "a"],
        &[
            "compare",
            "--liberty",
            "a",
            "--verilog",
            "b",
            "--verilog",
            "b",
        ],
        &["compare", "--liberty", "a", "--verilog", "b", "c"],
        &["compare", "--liberty", "", "--verilog", "b"],
    ];
    for words in cases {
        let words = words_of(alloc, words)?;
        let mut shelf = shelf_of(alloc, LIBERTY, VERILOG, &[])?;
        let mut out = MemSink::new(alloc, 100, Vec::new(alloc))?;
        assert_eq!(rt; qual(alloc, &words, &mut shelf, &mut out), Status::Usage);
        assert_eq!(rt; out.written(), USAGE);
        assert_eq!(rt; shelf.asked().starts, 0);
    }
    Ok(())
}

#[test]
fn files_are_named_in_reading_order(rt: HostRuntime) -> Result<(), Fail> {
    let alloc = rt.alloc();
    let words = words_of(alloc, &WORDS)?;
    let Command { name, files } = command_of(alloc, &words)?.ok_or("no command")?;
    assert_eq!(rt; name, CommandName::Compare);
    assert_eq!(rt; files.len(), 2);
    for (file, want) in files.as_slice().iter().zip(["liberty", "verilog"]) {
        assert_eq!(rt; file.0.as_bytes(), want.as_bytes());
    }
    assert_eq!(rt; files.as_slice()[0].1, 4);
    assert_eq!(rt; files.as_slice()[1].1, 2);
    Ok(())
}

#[test]
fn a_failing_shelf_is_a_read_fault(rt: HostRuntime) -> Result<(), Fail> {
    let alloc = rt.alloc();
    let words = words_of(alloc, &WORDS)?;
    for call in 0..6 {
        let mut shelf = shelf_of(alloc, LIBERTY, VERILOG, &[call])?;
        let mut out = MemSink::new(alloc, 200, Vec::new(alloc))?;
        assert_eq!(rt;
            qual(alloc, &words, &mut shelf, &mut out),
            Status::ReadFault
        );
        assert_eq!(rt; out.written(), b"".as_slice());
        assert_eq!(rt; shelf.asked().calls, call + 1);
    }
    Ok(())
}

#[test]
fn a_failing_sink_is_a_write_fault(rt: HostRuntime) -> Result<(), Fail> {
    let alloc = rt.alloc();
    let words = words_of(alloc, &WORDS)?;
    for room in 0..EQUAL.len() {
        let mut shelf = shelf_of(alloc, LIBERTY, VERILOG, &[])?;
        let mut out = MemSink::new(alloc, room, Vec::new(alloc))?;
        assert_eq!(rt;
            qual(alloc, &words, &mut shelf, &mut out),
            Status::WriteFault
        );
        assert_eq!(rt; out.written(), &EQUAL[..room]);
    }
    let mut shelf = shelf_of(alloc, LIBERTY, VERILOG, &[])?;
    let mut out = MemSink::new(alloc, 200, vec![in alloc; 0u64]?)?;
    assert_eq!(rt;
        qual(alloc, &words, &mut shelf, &mut out),
        Status::WriteFault
    );
    assert_eq!(rt; out.written(), b"".as_slice());
    Ok(())
}

#[test]
fn a_refused_first_file_comes_before_a_missing_second(rt: HostRuntime) -> Result<(), Fail> {
    let alloc = rt.alloc();
    let words = words_of(alloc, &["compare", "--liberty", "b", "--verilog", "other"])?;
    let mut shelf = shelf_of(alloc, LIBERTY, VERILOG, &[])?;
    let mut out = MemSink::new(alloc, 200, Vec::new(alloc))?;
    assert_eq!(rt;
        qual(alloc, &words, &mut shelf, &mut out),
        Status::FileRefused
    );
    assert_eq!(rt;
        out.written(),
        b"refused liberty syntax line 1 column 1\n".as_slice()
    );
    assert_eq!(rt; shelf.asked().starts, 1);
    let words = words_of(alloc, &["compare", "--liberty", "a", "--verilog", "other"])?;
    let mut shelf = shelf_of(alloc, LIBERTY, VERILOG, &[])?;
    let mut out = MemSink::new(alloc, 200, Vec::new(alloc))?;
    assert_eq!(rt;
        qual(alloc, &words, &mut shelf, &mut out),
        Status::ReadFault
    );
    assert_eq!(rt; out.written(), b"".as_slice());
    Ok(())
}
