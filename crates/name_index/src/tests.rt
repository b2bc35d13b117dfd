use super::*;
use std::process::Abort;
use std::test::Fail;

#[test]
fn names_are_found_at_their_first_places(rt: HostRuntime) -> Result<(), Fail> {
    let alloc = rt.alloc();
    let mut names = Names::new(alloc);
    names.push(alloc, b"A")?;
    names.push(alloc, b"B1")?;
    names.push(alloc, b"A")?;
    names.push(alloc, b"")?;
    assert_eq!(rt; names.len(), 4);
    assert_eq!(rt; names.place_of(b"A"), Some(0));
    assert_eq!(rt; names.place_of(b"B1"), Some(1));
    assert_eq!(rt; names.place_of(b""), Some(3));
    assert_eq!(rt; names.place_of(b"B"), None);
    assert!(rt; names.contains(b"B1"));
    assert!(rt; !names.contains(b"a"));
    Ok(())
}

#[test]
fn more_than_sixteen_names_are_found(rt: HostRuntime) -> Result<(), Fail> {
    let alloc = rt.alloc();
    let mut names = Names::new(alloc);
    for letter in b"ABCDEFGHIJKLMNOPAQBR" {
        names.push(alloc, &[*letter])?;
    }
    assert_eq!(rt; names.len(), 20);
    assert_eq!(rt; names.as_slice().len(), 20);
    assert_eq!(rt; names.place_of(b"A"), Some(0));
    assert_eq!(rt; names.place_of(b"B"), Some(1));
    assert_eq!(rt; names.place_of(b"P"), Some(15));
    assert_eq!(rt; names.place_of(b"Q"), Some(17));
    assert_eq!(rt; names.place_of(b"R"), Some(19));
    assert_eq!(rt; names.place_of(b"S"), None);
    assert!(rt; names.contains(b"R"));
    assert!(rt; !names.contains(b"a"));
    Ok(())
}
