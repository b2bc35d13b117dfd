use super::*;
use std::alloc::Global;
use std::test::Fail;
use tern_core::Tern;
use text_scan::{Direction, FileRefusal, LimitKind, Limits};

fn read(alloc: Global, text: &[u8]) -> Result<Source, FileRefusal> {
    read_source(alloc, text, &Limits::standard())
}

fn is_syntax(alloc: Global, text: &[u8], at: (u32, u32)) -> bool {
    match read(alloc, text) {
        Err(FileRefusal::Syntax { line, column }) => line == at.0 && column == at.1,
        _ => false,
    }
}

fn is_too_many(alloc: Global, text: &[u8], limit: LimitKind, most: u32) -> bool {
    match read(alloc, text) {
        Err(FileRefusal::TooMany { kind, number }) => kind == limit && number == most,
        _ => false,
    }
}

fn is_double(alloc: Global, text: &[u8], word: &[u8], at: u32) -> bool {
    match read(alloc, text) {
        Err(FileRefusal::DoubleName { name, line }) => name.as_bytes() == word && line == at,
        _ => false,
    }
}

fn is_refused_module(part: &ModulePart, word: &[u8], at: u32) -> bool {
    match part {
        ModulePart::Refused {
            construct,
            line,
            ..
        } => construct.as_bytes() == word && *line == at,
        ModulePart::Whole(_) => false,
    }
}

fn is_refused_udp(part: &UdpPart, word: &[u8], at: u32) -> bool {
    match part {
        UdpPart::Refused {
            construct,
            line,
            ..
        } => construct.as_bytes() == word && *line == at,
        UdpPart::Whole(_) => false,
    }
}

// The one module of the text is refused so.
fn refuses(alloc: Global, text: &[u8], word: &[u8], at: u32) -> bool {
    match read(alloc, text) {
        Ok(source) => match source.modules.as_slice() {
            [part] => is_refused_module(part, word, at),
            _ => false,
        },
        Err(_) => false,
    }
}

// The one primitive of the text is refused so.
fn refuses_udp(alloc: Global, text: &[u8], word: &[u8], at: u32) -> bool {
    match read(alloc, text) {
        Ok(source) => match source.primitives.as_slice() {
            [part] => is_refused_udp(part, word, at),
            _ => false,
        },
        Err(_) => false,
    }
}

fn is_port(port: &Port, name: &[u8], direction: Direction) -> bool {
    port.name.as_bytes() == name && port.direction == direction
}

fn is_net(terminal: &Terminal, name: &[u8]) -> bool {
    match terminal {
        Terminal::Net(net) => net.as_bytes() == name,
        Terminal::Constant(_) => false,
    }
}

fn is_constant(terminal: &Terminal, value: Tern) -> bool {
    match terminal {
        Terminal::Net(_) => false,
        Terminal::Constant(constant) => *constant == value,
    }
}

fn is_element(element: &Element, kind: &[u8], label: &[u8], first: &[u8], count: usize) -> bool {
    element.kind.as_bytes() == kind
        && element.label.as_bytes() == label
        && element.terminals.len() == count
        && match element.terminals.as_slice() {
            [terminal, ..] => is_net(terminal, first),
            [] => false,
        }
}

// The second of three terminals is this constant.
fn has_constant(element: &Element, value: Tern) -> bool {
    match element.terminals.as_slice() {
        [_, terminal, _] => is_constant(terminal, value),
        _ => false,
    }
}

// How many ports, supplies and elements the one whole module has.
fn sizes(alloc: Global, text: &[u8]) -> Option<(usize, usize, usize)> {
    match read(alloc, text) {
        Ok(source) => match source.modules.as_slice() {
            [ModulePart::Whole(module)] => Some((
                module.ports.len(),
                module.supplies.len(),
                module.elements.len(),
            )),
            _ => None,
        },
        Err(_) => None,
    }
}

fn is_udp(part: &UdpPart, name: &[u8], sequential: bool, inputs: u32, rows: usize) -> bool {
    match part {
        UdpPart::Whole(udp) => {
            udp.name.as_bytes() == name
                && udp.sequential == sequential
                && udp.inputs == inputs
                && udp.rows.len() == rows
        }
        UdpPart::Refused { .. } => false,
    }
}

fn has_udp(alloc: Global, text: &[u8], sequential: bool, inputs: u32, rows: usize) -> bool {
    match read(alloc, text) {
        Ok(source) => match source.primitives.as_slice() {
            [part] => is_udp(part, b"u", sequential, inputs, rows),
            _ => false,
        },
        Err(_) => false,
    }
}

fn is_inverter(module: &Module) -> bool {
    module.name.as_bytes() == b"INV".as_slice()
        && match module.ports.as_slice() {
            [a, y] => is_port(a, b"A", Direction::Input) && is_port(y, b"Y", Direction::Output),
            _ => false,
        }
        && match module.elements.as_slice() {
            [gate] => is_element(gate, b"not", b"Y", b"Y", 2),
            _ => false,
        }
}

// The row of the text's one primitive with this index.
fn has_row(alloc: Global, text: &[u8], index: usize, row: &[u8]) -> bool {
    match read(alloc, text) {
        Ok(source) => match source.primitives.as_slice() {
            [UdpPart::Whole(udp)] => {
                let rows = udp.rows.as_slice();
                index < rows.len() && rows[index].as_bytes() == row
            }
            _ => false,
        },
        Err(_) => false,
    }
}

#[test]
fn an_inverter_is_read(rt: HostRuntime) -> Result<(), Fail> {
    let text = b"module INV(A,Y);input A;output Y;not(Y,A);endmodule";
    let source = read(rt.alloc(), text)?;
    let held = match source.modules.as_slice() {
        [ModulePart::Whole(module)] => is_inverter(module),
        _ => false,
    };
    assert!(rt; held);
    assert_eq!(rt; source.primitives.len(), 0);
    Ok(())
}

#[test]
fn a_cell_model_of_a_library_is_read(rt: HostRuntime) {
    let alloc = rt.alloc();
    let nand =
        b"`timescale 1ns/1ps\n`celldefine\nmodule ND2(A,B,Y);input A,B;output Y;nand(Y,A,B);\nspecify\n  (A => Y) = (1.0, 1.0);\n  `MACRO endspecify endmodule\nendspecify\nendmodule\n`endcelldefine\n";
    assert_eq!(rt; sizes(alloc, nand), Some((3, 0, 1)));
    let multiplexer =
        b"module MX(D0,D1,S,Y);input D0,D1,S;output Y;not(n,S);and(a,D0,n);and(b,D1,S);or(Y,a,b);endmodule";
    assert_eq!(rt; sizes(alloc, multiplexer), Some((4, 0, 4)));
    assert_eq!(rt; sizes(alloc, b"module M;endmodule"), Some((0, 0, 0)));
    assert_eq!(rt; sizes(alloc, b"module M();endmodule"), Some((0, 0, 0)));
    let listed =
        b"module M(a, input wire b, c, output reg y, inout z);inout a;supply0 gnd;supply1 vdd, top;wire w;not #(1,(2)) g1(y,b),(z,c);lat #1.5 \\l+1 (w,1'b0,a);lat #d(w,1'B1,1'b1);and #1 (y,a);buf(x,y,1'b1);endmodule";
    assert_eq!(rt; sizes(alloc, listed), Some((5, 3, 6)));
}

#[test]
fn instances_have_labels_and_constants(rt: HostRuntime) -> Result<(), Fail> {
    let text = b"module M(q);output q;lat \\l+1 (q,1'B1,a);nor(\\z$ ,a,b);endmodule";
    let source = read(rt.alloc(), text)?;
    let held = match source.modules.as_slice() {
        [ModulePart::Whole(module)] => match module.elements.as_slice() {
            [lat, nor] => {
                is_element(lat, b"lat", b"l+1", b"q", 3)
                    && has_constant(lat, Tern::One)
                    && is_element(nor, b"nor", b"z$", b"z$", 3)
            }
            _ => false,
        },
        _ => false,
    };
    assert!(rt; held);
    Ok(())
}

#[test]
fn primitives_are_read(rt: HostRuntime) {
    let alloc = rt.alloc();
    let flop =
        b"primitive u(q,d,ck);output q;reg q;input d,ck;\ntable\n0 r : ? : 0 ;\n1 r : ? : 1 ;\n? f : ? : - ;\n* ? : ? : - ;\nendtable endprimitive\nmodule DFF(D,CK,Q);input D,CK;output Q;u(Q,D,CK);endmodule\n";
    assert!(rt; has_udp(alloc, flop, true, 2, 4));
    assert!(rt; has_row(alloc, flop, 3, b"*?:?:-"));
    assert_eq!(rt; sizes(alloc, flop), Some((3, 0, 1)));
    let listed =
        b"primitive u(output reg q, input d, g); initial q = 1'b0; table (0 1) /* up */ 0:?:0; ; endtable endprimitive";
    assert!(rt; has_udp(alloc, listed, true, 2, 2));
    assert!(rt; has_row(alloc, listed, 0, b"(01)0:?:0"));
    assert!(rt; has_row(alloc, listed, 1, b""));
    assert!(rt;
        has_udp(
            alloc,
            b"primitive u(q,a);table endtable endprimitive",
            false,
            1,
            0
        )
    );
    assert!(rt;
        has_udp(
            alloc,
            b"primitive u(q,a,b);input b;output q;input a;table 01:1;endtable endprimitive",
            false,
            2,
            1
        )
    );
}

#[test]
fn a_module_is_refused_at_its_first_item_out_of_place(rt: HostRuntime) {
    let alloc = rt.alloc();
    assert!(rt;
        refuses(
            alloc,
            b"module M(a,y);input a;output y;\nassign y = a;\nendmodule",
            b"=",
            2
        )
    );
    assert!(rt;
        refuses(
            alloc,
            b"module M(a,y);input a;output y;not(y,\n1'b0,a);endmodule",
            b",",
            2
        )
    );
    assert!(rt;
        refuses(
            alloc,
            b"module M(a,y);input a;output y;and(1'b0,a);endmodule",
            b"1'b0",
            1
        )
    );
    assert!(rt; refuses(alloc, b"module M(a);input wire a;endmodule", b"wire", 1));
    assert!(rt; refuses(alloc, b"module M(q);output reg q;endmodule", b"reg", 1));
    assert!(rt; refuses(alloc, b"module M(a,b);input b;\n\nendmodule", b"a", 3));
    assert!(rt; refuses(alloc, b"module M(a);input a;\noutput a;endmodule", b"a", 2));
    assert!(rt; refuses(alloc, b"module M(a);input a,b;endmodule", b"b", 1));
    assert!(rt; refuses(alloc, b"module M(a);input a;\n`FOO endmodule", b"macro", 2));
    assert!(rt; refuses(alloc, b"module M(a\nendmodule", b"end", 2));
    assert!(rt; refuses(alloc, b"module M(\"a b\");endmodule", b"string", 1));
    assert!(rt; refuses(alloc, b"module M(\"ab\");endmodule", b"ab", 1));
    assert!(rt; refuses(alloc, b"module M(\\a(b );endmodule", b"\\a(b", 1));
    assert!(rt; refuses(alloc, b"module M;initial a;endmodule", b"initial", 1));
    assert!(rt; refuses(alloc, b"module M;lat(y,a) #2;endmodule", b"#", 1));
}

#[test]
fn a_file_goes_on_after_the_first_end(rt: HostRuntime) -> Result<(), Fail> {
    let alloc = rt.alloc();
    let text =
        b"module A;always x; endprimitive module B;endmodule\n`MACRO module endmodule\nprimitive u(q);table q;endtable endmodule primitive v(q);table endtable endprimitive `M";
    let source = read(alloc, text)?;
    let modules = match source.modules.as_slice() {
        [a, ModulePart::Whole(b)] => {
            is_refused_module(a, b";", 1) && b.name.as_bytes() == b"B".as_slice()
        }
        _ => false,
    };
    assert!(rt; modules);
    let primitives = match source.primitives.as_slice() {
        [u, v] => is_refused_udp(u, b"q", 3) && is_udp(v, b"v", false, 0, 0),
        _ => false,
    };
    assert!(rt; primitives);
    Ok(())
}

#[test]
fn a_primitive_is_refused_at_its_first_item_out_of_place(rt: HostRuntime) {
    let alloc = rt.alloc();
    assert!(rt; refuses_udp(alloc, b"primitive u();endprimitive", b")", 1));
    assert!(rt;
        refuses_udp(
            alloc,
            b"primitive u(q,a);output a;table endtable endprimitive",
            b"a",
            1
        )
    );
    assert!(rt;
        refuses_udp(
            alloc,
            b"primitive u(q,a);input q;table endtable endprimitive",
            b"q",
            1
        )
    );
    assert!(rt;
        refuses_udp(
            alloc,
            b"primitive u(q,a);input a;\ninput a;table endtable endprimitive",
            b"a",
            2
        )
    );
    assert!(rt;
        refuses_udp(
            alloc,
            b"primitive u(q,a);reg q;\nreg q;table endtable endprimitive",
            b"q",
            2
        )
    );
    assert!(rt;
        refuses_udp(
            alloc,
            b"primitive u(output q, a);table endtable endprimitive",
            b"a",
            1
        )
    );
    assert!(rt;
        refuses_udp(
            alloc,
            b"primitive u(q,a);table 012:1;endtable endprimitive",
            b"012",
            1
        )
    );
    assert!(rt;
        refuses_udp(
            alloc,
            b"primitive u(q,a);table 0:1 endtable endprimitive",
            b"endtable",
            1
        )
    );
    assert!(rt;
        refuses_udp(
            alloc,
            b"primitive u(q,a);initial q=0; output q;table endtable endprimitive",
            b"output",
            1
        )
    );
}

#[test]
fn the_first_token_out_of_place_is_told(rt: HostRuntime) {
    let alloc = rt.alloc();
    assert!(rt; is_syntax(alloc, b"module M(a);input a;\nspecify x;", (2, 11)));
    assert!(rt; is_syntax(alloc, b"module M;specify endmodule", (1, 27)));
    assert!(rt; is_syntax(alloc, b"module M;initial a; ", (1, 21)));
    assert!(rt; is_syntax(alloc, b"module `M endmodule", (1, 8)));
    assert!(rt; is_syntax(alloc, b"module input;endmodule", (1, 8)));
    assert!(rt; is_syntax(alloc, b"module \\a( ;endmodule", (1, 8)));
    assert!(rt; is_syntax(alloc, b"endmodule", (1, 1)));
    assert!(rt; is_syntax(alloc, b"module M;endmodule;", (1, 19)));
    assert!(rt; is_syntax(alloc, b"module M;\x01endmodule", (1, 10)));
    assert!(rt; is_syntax(alloc, b"module M;x /* endmodule", (1, 12)));
    assert!(rt; is_syntax(alloc, b"`ifdef X\nmodule M;endmodule", (2, 19)));
    assert!(rt; is_syntax(alloc, b"module M;`else endmodule", (1, 10)));
}

#[test]
fn limits_and_double_names_are_told(rt: HostRuntime) -> Result<(), Fail> {
    let alloc = rt.alloc();
    assert!(rt; is_double(alloc, b"module M(a,\na);endmodule", b"a", 2));
    assert!(rt;
        is_double(
            alloc,
            b"module M;foo bar baz;endmodule\nprimitive \\M (q);",
            b"M",
            2
        )
    );
    let deep =
        b"`ifdef a `ifdef a `ifdef a `ifdef a `ifdef a `ifdef a `ifdef a `ifdef a `ifdef a `ifdef a `ifdef a `ifdef a `ifdef a `ifdef a `ifdef a `ifdef a `ifdef a `ifdef a `ifdef a `ifdef a `ifdef a `ifdef a `ifdef a `ifdef a `ifdef a `ifdef a `ifdef a `ifdef a `ifdef a `ifdef a `ifdef a `ifdef a `ifdef a ";
    assert!(rt; is_too_many(alloc, deep, LimitKind::Nesting, 32));
    let mut long = Vec::new(alloc);
    long.extend_from_slice(b"module \\")?;
    for _ in 0..128 {
        long.push(b'(')?;
    }
    assert!(rt; is_syntax(alloc, &long, (1, 8)));
    long.push(b'(')?;
    assert!(rt; is_too_many(alloc, &long, LimitKind::Name, 128));
    Ok(())
}

#[test]
fn each_kind_of_part_is_counted(rt: HostRuntime) -> Result<(), Fail> {
    let alloc = rt.alloc();
    let limits = Limits {
        cells: 2,
        ..Limits::standard()
    };
    let two = b"module A;x endmodule primitive u(q);table endtable endprimitive module B;endmodule";
    assert_eq!(rt; read_source(alloc, two, &limits)?.modules.len(), 2);
    let three = b"module A;x endmodule module B;endmodule module 1";
    let is_counted = match read_source(alloc, three, &limits) {
        Err(FileRefusal::TooMany { kind, number }) => kind == LimitKind::Cells && number == 2,
        _ => false,
    };
    assert!(rt; is_counted);
    Ok(())
}
