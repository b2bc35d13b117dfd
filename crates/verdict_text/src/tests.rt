use super::*;
use std::alloc::Global;
use std::test::Fail;
use tern_core::Tern;
use text_scan::{LimitKind, NoMemory, Text};

fn find(
    alloc: Global,
    text: &mut Vec<u8>,
    place: (Code, &[u8], View),
    mismatch: Option<Mismatch>,
    waiver: Option<u32>,
) -> Result<(), NoMemory> {
    let (code, pin, view) = place;
    let finding = Finding {
        code,
        pin: Some(Text::from_bytes(alloc, pin)?),
        view,
        mismatch,
        waiver,
    };
    write_finding(alloc, &finding, text)
}

fn mismatch(row: u32, change: Option<Change>, liberty: Tern, other: Tern) -> Option<Mismatch> {
    Some(Mismatch {
        row,
        change,
        liberty,
        other,
    })
}

fn rising_clock(alloc: Global) -> Result<Change, NoMemory> {
    Ok(Change {
        pin: Text::from_bytes(alloc, b"CK")?,
        value: Tern::One,
    })
}

fn name(alloc: Global, bytes: &[u8]) -> Result<Text, NoMemory> {
    Text::from_bytes(alloc, bytes)
}

fn refuse(alloc: Global, text: &mut Vec<u8>, reason: Reason) -> Result<(), NoMemory> {
    write_reason(alloc, &reason, text)
}

#[test]
fn a_finding_of_the_cell_has_no_pin(rt: HostRuntime) -> Result<(), Fail> {
    let alloc = rt.alloc();
    let mut text = b"end\n".to_vec(alloc)?;
    let finding = Finding {
        code: Code::P1,
        pin: None,
        view: View::Verilog,
        mismatch: None,
        waiver: None,
    };
    write_finding(alloc, &finding, &mut text)?;
    assert_eq!(rt; text.as_slice(), b"end\nfinding P1 - verilog\n".as_slice());
    Ok(())
}

#[test]
fn findings_have_their_lines(rt: HostRuntime) -> Result<(), Fail> {
    let alloc = rt.alloc();
    let mut text = Vec::new(alloc);
    find(
        alloc,
        &mut text,
        (Code::P2, b"VDD", View::Lef),
        None,
        Some(12),
    )?;
    let change = Some(rising_clock(alloc)?);
    let differs = mismatch(4_294_967_295, change, Tern::Zero, Tern::Unknown);
    find(alloc, &mut text, (Code::M2, b"Y", View::Cdl), differs, None)?;
    let rest = mismatch(10, None, Tern::One, Tern::Zero);
    find(
        alloc,
        &mut text,
        (Code::M1, b"Q", View::Verilog),
        rest,
        Some(1),
    )?;
    assert_eq!(rt;
        text.as_slice(),
        b"finding P2 VDD lef waived 12\nfinding M2 Y cdl row 4294967295 change CK=1 liberty 0 view X\nfinding M1 Q verilog row 10 change - liberty 1 view 0 waived 1\n".as_slice()
    );
    Ok(())
}

#[test]
fn reasons_of_files_have_their_lines(rt: HostRuntime) -> Result<(), Fail> {
    let alloc = rt.alloc();
    let mut text = Vec::new(alloc);
    let word = name(alloc, b"bus")?;
    refuse(
        alloc,
        &mut text,
        Reason::Construct {
            view: View::Liberty,
            word,
            line: 7,
        },
    )?;
    let unknown = name(alloc, b"B")?;
    refuse(alloc, &mut text, Reason::UnknownName(unknown))?;
    let owner = name(alloc, b"Y")?;
    refuse(alloc, &mut text, Reason::BadFunction { owner, place: 0 })?;
    refuse(alloc, &mut text, Reason::BadStateRow(3))?;
    assert_eq!(rt;
        text.as_slice(),
        b"refused construct liberty line 7 bus\nrefused unknown name B\nrefused function Y place 0\nrefused state row 3\n".as_slice()
    );
    Ok(())
}

#[test]
fn reasons_of_primitives_have_their_lines(rt: HostRuntime) -> Result<(), Fail> {
    let alloc = rt.alloc();
    let mut text = Vec::new(alloc);
    let udp = name(alloc, b"dffu")?;
    refuse(alloc, &mut text, Reason::UdpRow { udp, row: 4 })?;
    let udp = name(alloc, b"dffu")?;
    refuse(
        alloc,
        &mut text,
        Reason::UdpRows {
            udp,
            first: 1,
            second: 2,
        },
    )?;
    let udp = name(alloc, b"lat")?;
    refuse(alloc, &mut text, Reason::UnknownUdp(udp))?;
    refuse(
        alloc,
        &mut text,
        Reason::Limit {
            kind: LimitKind::UdpInputs,
            number: 10,
        },
    )?;
    assert_eq!(rt;
        text.as_slice(),
        b"refused udp dffu row 4\nrefused udp dffu rows 1 2\nrefused unknown udp lat\nrefused limit udp_inputs 10\n".as_slice()
    );
    Ok(())
}

#[test]
fn reasons_of_networks_have_their_lines(rt: HostRuntime) -> Result<(), Fail> {
    let alloc = rt.alloc();
    let mut text = Vec::new(alloc);
    let net = name(alloc, b"n")?;
    refuse(alloc, &mut text, Reason::Loop(net))?;
    let net = name(alloc, b"m")?;
    refuse(alloc, &mut text, Reason::TwoDrivers(net))?;
    let label = name(alloc, b"u1")?;
    refuse(alloc, &mut text, Reason::PortCount(label))?;
    let model = name(alloc, b"nch")?;
    refuse(alloc, &mut text, Reason::UnknownModel(model))?;
    let node = name(alloc, b"VDD")?;
    refuse(alloc, &mut text, Reason::SupplyShort(node))?;
    assert_eq!(rt;
        text.as_slice(),
        b"refused loop n\nrefused two drivers m\nrefused port count u1\nrefused unknown model nch\nrefused short VDD\n".as_slice()
    );
    Ok(())
}

#[test]
fn reasons_of_tables_have_their_lines(rt: HostRuntime) -> Result<(), Fail> {
    let alloc = rt.alloc();
    let mut text = Vec::new(alloc);
    refuse(alloc, &mut text, Reason::NoTable)?;
    refuse(alloc, &mut text, Reason::EmptyTable)?;
    refuse(alloc, &mut text, Reason::TableShape(5))?;
    let place = name(alloc, b"m1")?;
    refuse(alloc, &mut text, Reason::RowNotAtRest { row: 3, place })?;
    assert_eq!(rt;
        text.as_slice(),
        b"refused no table\nrefused empty table\nrefused table line 5\nrefused not at rest row 3 m1\n".as_slice()
    );
    Ok(())
}

#[test]
fn reasons_of_changes_have_their_lines(rt: HostRuntime) -> Result<(), Fail> {
    let alloc = rt.alloc();
    let mut text = Vec::new(alloc);
    let change = rising_clock(alloc)?;
    refuse(alloc, &mut text, Reason::NotClosed { row: 5, change })?;
    let change = rising_clock(alloc)?;
    let node = name(alloc, b"r1")?;
    refuse(
        alloc,
        &mut text,
        Reason::Moving {
            row: 6,
            change,
            node,
        },
    )?;
    assert_eq!(rt;
        text.as_slice(),
        b"refused not closed row 5 change CK=1\nrefused moving row 6 change CK=1 node r1\n".as_slice()
    );
    Ok(())
}

#[test]
fn a_block_is_read_back_in_one_spelling(rt: HostRuntime) -> Result<(), Fail> {
    let alloc = rt.alloc();
    let text =
        b"cell S0\ncheck full\nrows 2\ndefined 2\nfinding M2 Y cdl row 2 change A=1 liberty 0 view X waived 3\nverdict waived\n".as_slice();
    let mut again = Vec::new(alloc);
    if let Some(cell) = read_block(alloc, text)? {
        write_block(alloc, &cell, &mut again)?;
    }
    assert_eq!(rt; again.as_slice(), text);
    let blanks = b"cell  S0\ncheck none\nfinding P1 A verilog\nverdict failed\n".as_slice();
    assert!(rt; read_block(alloc, blanks)?.is_none());
    let unended = b"cell S0\ncheck none\nfinding P1 A verilog\nverdict failed".as_slice();
    assert!(rt; read_block(alloc, unended)?.is_none());
    Ok(())
}

#[test]
fn codes_are_read_exactly(rt: HostRuntime) -> Result<(), Fail> {
    assert_eq!(rt; code_of(b"Z2"), Some(Code::Z2));
    assert_eq!(rt; code_of(b"M3"), None);
    Ok(())
}
