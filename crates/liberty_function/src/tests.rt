use super::*;
use std::alloc::Global;
use std::process::Abort;
use std::test::Fail;
use tern_core::Tern;
use text_scan::NoMemory;

/// The inputs A and B and the state variable IQ.
fn scope(alloc: Global) -> Result<Scope, NoMemory> {
    let mut scope = Scope::new(alloc);
    scope.push(alloc, b"A", Source::Input(0))?;
    scope.push(alloc, b"B", Source::Input(1))?;
    scope.push(alloc, b"IQ", Source::State(0))?;
    Ok(scope)
}

#[test]
fn a_text_has_the_value_of_its_function(rt: HostRuntime) -> Result<(), Fail> {
    let alloc = rt.alloc();
    let scope = scope(alloc)?;
    match compile_text(alloc, &scope, b"A'+B^IQ") {
        Ok(program) => {
            assert_eq!(rt;
                program.value(&[Tern::One, Tern::Zero], &[Tern::One]),
                Tern::One
            );
            assert_eq!(rt;
                program.value(&[Tern::One, Tern::One], &[Tern::One]),
                Tern::Zero
            );
            assert_eq!(rt; program.value(&[Tern::Zero], &[]), Tern::One);
            assert_eq!(rt; program.value(&[Tern::One], &[]), Tern::Unknown);
        }
        Err(_) => assert!(rt; false),
    }
    Ok(())
}

#[test]
fn a_refused_text_tells_why(rt: HostRuntime) -> Result<(), Fail> {
    let alloc = rt.alloc();
    let scope = scope(alloc)?;
    match compile_text(alloc, &scope, b"D*(A+)") {
        Err(TextRefusal::BadFunction(place)) => assert_eq!(rt; place, 5),
        _answer => assert!(rt; false),
    }
    match compile_text(alloc, &scope, b"A D C") {
        Err(TextRefusal::UnknownName(name)) => assert!(rt; name.as_bytes() == b"D".as_slice()),
        _answer => assert!(rt; false),
    }
    Ok(())
}

#[test]
fn names_are_found(rt: HostRuntime) -> Result<(), Fail> {
    let alloc = rt.alloc();
    let scope = scope(alloc)?;
    match scope.find(b"B") {
        Some(source) => {
            assert_eq!(rt;
                source_value(&[Tern::Zero, Tern::One], &[], source),
                Tern::One
            )
        }
        None => assert!(rt; false),
    }
    assert!(rt; scope.find(b"C").is_none());
    let constant = Program::of_source(alloc, Source::One)?;
    assert_eq!(rt; constant.value(&[], &[]), Tern::One);
    assert_eq!(rt; value_at(&[Tern::Zero], 1), Tern::Unknown);
    assert!(rt; is_blank(b'\t'));
    laws::one_value();
    laws::monotone();
    Ok(())
}
