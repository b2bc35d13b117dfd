use super::*;
use std::test::Fail;

#[test]
fn two_seats_claim_two_cells(rt: HostRuntime) -> Result<(), Fail> {
    let (table, mut seat) = ClaimTable::new(rt.alloc(), 2, 2)?;
    let mut other = table.split(&mut seat, 1)?;
    let first = table.claim(&mut seat);
    assert_eq!(rt; first, Some(0));
    let second = table.claim(&mut seat);
    assert_eq!(rt; second, Some(1));
    let third = table.claim(&mut seat);
    assert_eq!(rt; third, None);
    let last = table.claim(&mut other);
    assert_eq!(rt; last, None);
    table.join(&mut seat, other);
    table.close(seat);
    Ok(())
}

#[test]
fn seats_claim_in_turn(rt: HostRuntime) -> Result<(), Fail> {
    let (table, mut seat) = ClaimTable::new(rt.alloc(), 64, 16)?;
    let mut other = table.split(&mut seat, 15)?;
    let first = table.claim(&mut other);
    assert_eq!(rt; first, Some(0));
    let second = table.claim(&mut seat);
    assert_eq!(rt; second, Some(1));
    let third = table.claim(&mut other);
    assert_eq!(rt; third, Some(2));
    Ok(())
}

#[test]
fn no_cell_is_left_of_none(rt: HostRuntime) -> Result<(), Fail> {
    let (table, mut seat) = ClaimTable::new(rt.alloc(), 0, 1)?;
    let first = table.claim(&mut seat);
    assert_eq!(rt; first, None);
    table.close(seat);
    Ok(())
}
