use super::*;
use std::alloc::Global;
use std::test::Fail;
use text_scan::{Direction, FileRefusal, LimitKind, Limits};

fn read(alloc: Global, text: &[u8]) -> Result<Library, FileRefusal> {
    read_library(alloc, text, &Limits::standard())
}

fn is_syntax(alloc: Global, text: &[u8], at: (u32, u32)) -> bool {
    match read(alloc, text) {
        Err(FileRefusal::Syntax { line, column }) => line == at.0 && column == at.1,
        _ => false,
    }
}

fn is_too_many(alloc: Global, text: &[u8], limit: LimitKind, most: u32) -> bool {
    match read(alloc, text) {
        Err(FileRefusal::TooMany { kind, number }) => kind == limit && number == most,
        _ => false,
    }
}

fn is_double(alloc: Global, text: &[u8], word: &[u8], at: u32) -> bool {
    match read(alloc, text) {
        Err(FileRefusal::DoubleName { name, line }) => name.as_bytes() == word && line == at,
        _ => false,
    }
}

fn is_refused(part: &CellPart, word: &[u8], at: u32) -> bool {
    match part {
        CellPart::Refused {
            construct,
            line,
            ..
        } => construct.as_bytes() == word && *line == at,
        CellPart::Whole(_) => false,
    }
}

fn refuses(alloc: Global, text: &[u8], word: &[u8], at: u32) -> bool {
    match read(alloc, text) {
        Ok(library) => match library.cells.as_slice() {
            [part] => is_refused(part, word, at),
            _ => false,
        },
        Err(_) => false,
    }
}

fn is_function(pin: &LibertyPin, text: &[u8]) -> bool {
    match &pin.function {
        Some(function) => function.as_bytes() == text,
        None => false,
    }
}

fn has_inverter(library: &Library) -> bool {
    match library.cells.as_slice() {
        [CellPart::Whole(cell)] => match cell.pins.as_slice() {
            [a, y] => {
                a.direction == Direction::Input
                    && y.name.as_bytes() == b"Y".as_slice()
                    && y.direction == Direction::Output
                    && is_function(y, b"!A")
            }
            _ => false,
        },
        _ => false,
    }
}

#[test]
fn an_inverter_is_read(rt: HostRuntime) -> Result<(), Fail> {
    let library = read(
        rt.alloc(),
        b"library(t){cell(INV){pin(A){direction:input;}pin(Y){direction:output;function:\"!A\";}}}",
    )?;
    assert!(rt; has_inverter(&library));
    Ok(())
}

#[test]
fn quotes_and_lines_make_no_difference(rt: HostRuntime) -> Result<(), Fail> {
    let library = read(
        rt.alloc(),
        b"library(\"t\") {\n cell (\"INV\") { area : 1.2\n pin(\"A\") { direction : \"input\" }\n pin\n(Y) { direction : \"output\"; function : \"!A\"; timing () { index_1 (\"0.1, 0.2\") ; } } ; }\n} ;\n",
    )?;
    assert!(rt; has_inverter(&library));
    Ok(())
}

#[test]
fn the_first_token_out_of_place_is_told(rt: HostRuntime) {
    let alloc = rt.alloc();
    assert!(rt; is_syntax(alloc, b"library(l){ a : \"x", (1, 17)));
    assert!(rt; is_syntax(alloc, b"", (1, 1)));
    assert!(rt; is_syntax(alloc, b"library(l){a(b,,c);}", (1, 16)));
    assert!(rt; is_syntax(alloc, b"library(l){include_file(x);}", (1, 27)));
    assert!(rt; is_syntax(alloc, b"library(l){};;", (1, 14)));
    assert!(rt; is_syntax(alloc, b"library(l){cell(a'){}}", (1, 17)));
}

#[test]
fn limits_and_double_names_are_told(rt: HostRuntime) {
    let alloc = rt.alloc();
    let deep =
        b"library(l){a(){a(){a(){a(){a(){a(){a(){a(){a(){a(){a(){a(){a(){a(){a(){a(){a(){a(){a(){a(){a(){a(){a(){a(){a(){a(){a(){a(){a(){a(){a(){a(){";
    assert!(rt; is_too_many(alloc, deep, LimitKind::Nesting, 32));
    assert!(rt; is_double(alloc, b"library(l){cell(A){}\ncell(A){} }}", b"A", 2));
    assert!(rt;
        is_double(
            alloc,
            b"library(l){cell(A){bus(Q){}pin(B){}\npg_pin(B){}",
            b"B",
            2
        )
    );
}

#[test]
fn the_first_construct_that_is_not_read_is_told(rt: HostRuntime) {
    let alloc = rt.alloc();
    assert!(rt; refuses(alloc, b"library(l){cell(A){pin(B){}\nbus(C){}}}", b"pin", 1));
    assert!(rt;
        refuses(
            alloc,
            b"library(l){cell(A){ff(a,b){}\nlatch(a,b){}}}",
            b"latch",
            2
        )
    );
    assert!(rt;
        refuses(
            alloc,
            b"library(l){cell(A){pg_pin(\"a b\"){pg_type:x;}}}",
            b"string",
            1
        )
    );
    assert!(rt;
        refuses(
            alloc,
            b"library(l){cell(A){pin(B){three_state:\"x\";\ndirection:inout;three_state:\"y\";}}}",
            b"inout",
            2
        )
    );
}
