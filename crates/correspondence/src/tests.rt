use super::*;
use std::process::Abort;
use std::test::Fail;
use tern_core::Tern;
use text_scan::Limits;

const FLIP_FLOP: &str = "table DFF
pins D CK
state IQ IQN
udps Q
nodes ckn ckb m1 m2 s1 s2 Q
row 00 01 0 1001100
row 00 10 1 1001011
row 00 XX X 1001XXX
row 01 01 0 0101100
row 01 10 1 0110011
row 01 XX X 01XXXXX
row 10 01 0 1010100
row 10 10 1 1010011
row 10 XX X 1010XXX
row 11 01 0 0101100
row 11 10 1 0110011
row 11 XX X 01XXXXX
end
";

const PINS: [Tern; 2] = [Tern::Zero, Tern::Zero];

const STATE: [Tern; 2] = [Tern::One, Tern::Zero];

const UDPS: [Tern; 1] = [Tern::One];

const NODES: [Tern; 7] = [
    Tern::One,
    Tern::Zero,
    Tern::Zero,
    Tern::One,
    Tern::Zero,
    Tern::One,
    Tern::One,
];

#[test]
fn the_table_of_a_flip_flop_is_read(rt: HostRuntime) -> Result<(), Fail> {
    let text = FLIP_FLOP.as_bytes();
    let tables = read_tables(rt.alloc(), text, &Limits::standard())?;
    assert_eq!(rt; tables.tables.len(), 1);
    let table = &tables.tables.as_slice()[0];
    assert!(rt; table.cell.as_bytes() == b"DFF".as_slice());
    assert_eq!(rt; table.line, 1);
    assert_eq!(rt; table.lines, [2, 3, 4, 5]);
    assert_eq!(rt; table.pins.len(), 2);
    assert_eq!(rt; table.xline, 0);
    assert_eq!(rt; table.udps.len(), 1);
    assert!(rt; table.udps.as_slice()[0].as_bytes() == b"Q".as_slice());
    assert_eq!(rt; table.nodes.len(), 7);
    assert_eq!(rt; table.rows.len(), 12);
    let row = &table.rows.as_slice()[1];
    assert_eq!(rt; row.line, 7);
    assert!(rt; row.pins.as_slice() == PINS.as_slice());
    assert!(rt; row.liberty.as_slice() == STATE.as_slice());
    assert!(rt; row.udps.as_slice() == UDPS.as_slice());
    assert!(rt; row.nodes.as_slice() == NODES.as_slice());
    Ok(())
}

#[test]
fn the_first_row_that_covers_is_found(rt: HostRuntime) -> Result<(), Fail> {
    let text = FLIP_FLOP.as_bytes();
    let tables = read_tables(rt.alloc(), text, &Limits::standard())?;
    assert_eq!(rt; tables.tables.len(), 1);
    let table = &tables.tables.as_slice()[0];
    assert!(rt; cover(table, &PINS, &STATE, &UDPS, &NODES) == Some(1));
    assert!(rt; cover(table, &PINS, &STATE, &[Tern::Zero], &NODES) == None);
    let index = RowIndex::new(rt.alloc(), table)?;
    assert!(rt; index.cover(table, &PINS, &STATE, &UDPS, &NODES) == Some(1));
    assert!(rt; index.cover(table, &PINS, &STATE, &[Tern::Zero], &NODES) == None);
    Ok(())
}
