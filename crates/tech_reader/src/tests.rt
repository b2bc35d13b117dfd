use super::*;
use circuit::{ModelCard, Tech};
use std::alloc::{AllocError, Global};
use std::process::Abort;
use std::test::Fail;
use text_scan::{FileRefusal, LimitKind, Limits, PinKind};

fn read(alloc: Global, text: &[u8]) -> Result<Tech, FileRefusal> {
    read_tech(alloc, text, &Limits::standard())
}

fn is_syntax(alloc: Global, text: &[u8], at: (u32, u32)) -> bool {
    match read(alloc, text) {
        Err(FileRefusal::Syntax { line, column }) => line == at.0 && column == at.1,
        _ => false,
    }
}

fn is_too_many(alloc: Global, text: &[u8], limit: LimitKind, most: u32) -> bool {
    match read(alloc, text) {
        Err(FileRefusal::TooMany { kind, number }) => kind == limit && number == most,
        _ => false,
    }
}

fn is_double(alloc: Global, text: &[u8], word: &[u8], at: u32) -> bool {
    match read(alloc, text) {
        Err(FileRefusal::DoubleName { name, line }) => name.as_bytes() == word && line == at,
        _ => false,
    }
}

fn is_model(card: &ModelCard, name: &[u8], p: bool, strength: u8) -> bool {
    card.name.as_bytes() == name && card.p == p && card.strength == strength
}

// How many models, sizes and supplies.
fn counts(alloc: Global, text: &[u8]) -> Option<(usize, usize, usize)> {
    match read(alloc, text) {
        Ok(tech) => Some((tech.models.len(), tech.sizes.len(), tech.supplies.len())),
        Err(_) => None,
    }
}

// A text of this many sizes, all of different cells.
fn sizes(alloc: Global, count: u32) -> Result<Vec<u8>, AllocError> {
    let mut text = Vec::new(alloc);
    for number in 0..count {
        text.extend_from_slice(b"size,C")?;
        for place in [65_536_u32, 256, 16, 1] {
            text.push(b'a' + (number / place % 16) as u8)?;
        }
        text.push(b'a' + (number / 4096 % 16) as u8)?;
        text.extend_from_slice(b",m,2\n")?;
    }
    Ok(text)
}

#[test]
fn four_models_are_read(rt: HostRuntime) -> Result<(), Fail> {
    let text = b"model,n,n,5\nmodel,p,p,5\nmodel,nw,n,4\nmodel,pw,p,4\n";
    let tech = read(rt.alloc(), text)?;
    assert_eq!(rt; tech.models.len(), 4);
    let models = tech.models.as_slice();
    assert!(rt; is_model(&models[0], b"n", false, 5));
    assert!(rt; is_model(&models[1], b"p", true, 5));
    assert!(rt; is_model(&models[2], b"nw", false, 4));
    assert!(rt; is_model(&models[3], b"pw", true, 4));
    assert_eq!(rt; tech.sizes.len() + tech.supplies.len(), 0);
    Ok(())
}

#[test]
fn sizes_and_supplies_are_read(rt: HostRuntime) -> Result<(), Fail> {
    let text = b"supply,VDD,power,-\nsize,INV,m,2\nsupply,VSS,ground,-\nsize,INV,n,1\nsize,NOR,m,3";
    let tech = read(rt.alloc(), text)?;
    assert_eq!(rt; tech.models.len(), 0);
    assert_eq!(rt; tech.sizes.len(), 3);
    let size = &tech.sizes.as_slice()[2];
    assert!(rt; size.cell.as_bytes() == b"NOR".as_slice());
    assert!(rt; size.node.as_bytes() == b"m".as_slice());
    assert_eq!(rt; size.strength, 3);
    assert_eq!(rt; tech.supplies.len(), 2);
    let supplies = tech.supplies.as_slice();
    assert!(rt; supplies[0].name.as_bytes() == b"VDD".as_slice());
    assert!(rt; supplies[0].kind == PinKind::Power);
    assert!(rt; supplies[1].kind == PinKind::Ground);
    Ok(())
}

#[test]
fn texts_are_records(rt: HostRuntime) -> Result<(), Fail> {
    let alloc = rt.alloc();
    assert!(rt; counts(alloc, b"") == Some((0, 0, 0)));
    assert!(rt; counts(alloc, b"\r\n\n\r") == Some((0, 0, 0)));
    assert!(rt; counts(alloc, b"\xEF\xBB\xBFmodel,n,n,5\n") == Some((1, 0, 0)));
    assert!(rt; counts(alloc, b"\"model\",\"n\",n,\"5\"\r\nmodel,p,p,7\r\n") == Some((2, 0, 0)));
    // A quote within a field is a byte of it.
    assert!(rt; is_syntax(alloc, b"model,n\"\",n,5\n", (1, 2)));
    assert!(rt; is_syntax(alloc, b"model,\"a,b\",n,5\n", (1, 2)));
    // Empty lines are no records.
    assert!(rt; is_syntax(alloc, b"\nmodel,n,n,5\n\n\nmodel,p,p,8\n", (2, 4)));
    Ok(())
}

#[test]
fn wrong_fields_are_told(rt: HostRuntime) -> Result<(), Fail> {
    let alloc = rt.alloc();
    assert!(rt; is_syntax(alloc, b"model,n,n,3", (1, 4)));
    assert!(rt; is_syntax(alloc, b"model,n,n,8", (1, 4)));
    assert!(rt; is_syntax(alloc, b"model,n,n,05", (1, 4)));
    assert!(rt; is_syntax(alloc, b"model,n,N,5", (1, 3)));
    assert!(rt; is_syntax(alloc, b"size,INV,m,0", (1, 4)));
    assert!(rt; is_syntax(alloc, b"size,INV,m,4", (1, 4)));
    assert!(rt; is_syntax(alloc, b"size,INV,*,2", (1, 3)));
    assert!(rt; is_syntax(alloc, b"supply,VDD,power,", (1, 4)));
    assert!(rt; is_syntax(alloc, b"supply,VDD,signal,-", (1, 3)));
    assert!(rt; is_syntax(alloc, b"model,-,x,9", (1, 2)));
    assert!(rt; is_syntax(alloc, b"model,a\x80,n,5", (1, 2)));
    assert!(rt; is_syntax(alloc, b"Model,n,n,5", (1, 1)));
    assert!(rt; is_syntax(alloc, b"model,n,n,5\nmodel,p,p\n", (2, 0)));
    assert!(rt; is_syntax(alloc, b"wrong,n,n,5,6\n", (1, 0)));
    Ok(())
}

#[test]
fn long_names_are_too_many(rt: HostRuntime) -> Result<(), Fail> {
    let alloc = rt.alloc();
    let mut text = b"size,INV,".to_vec(alloc)?;
    for _ in 0..128 {
        text.push(b'm')?;
    }
    let mut longer = text.clone()?;
    text.extend_from_slice(b",2\n")?;
    assert!(rt; counts(alloc, &text) == Some((0, 1, 0)));
    longer.extend_from_slice(b" ,2\n")?;
    assert!(rt; is_too_many(alloc, &longer, LimitKind::Name, 128));
    Ok(())
}

#[test]
fn names_stand_once(rt: HostRuntime) -> Result<(), Fail> {
    let alloc = rt.alloc();
    assert!(rt; is_double(alloc, b"model,n,n,5\nmodel,n,p,4\n", b"n", 2));
    assert!(rt;
        is_double(
            alloc,
            b"supply,V,power,-\nmodel,V,n,4\nsupply,V,ground,-\n",
            b"V",
            3
        )
    );
    assert!(rt;
        is_double(
            alloc,
            b"size,INV,m,1\nsize,NOR,m,1\nsize,INV,n,1\nsize,NOR,m,2\n",
            b"m",
            4
        )
    );
    // Another fault of the record comes before.
    assert!(rt; is_syntax(alloc, b"model,n,n,5\nmodel,n,n,3\n", (2, 4)));
    Ok(())
}

#[test]
fn records_have_a_limit(rt: HostRuntime) -> Result<(), Fail> {
    let alloc = rt.alloc();
    let mut text = sizes(alloc, 65_536)?;
    assert!(rt; counts(alloc, &text) == Some((0, 65_536, 0)));
    // The number of records is judged before the record's fields.
    text.extend_from_slice(b"wrong\n")?;
    assert!(rt; is_too_many(alloc, &text, LimitKind::Records, 65_536));
    Ok(())
}
