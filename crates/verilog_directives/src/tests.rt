use super::*;
use std::alloc::{Alloc, Global};
use std::process::Abort;
use std::test::Fail;
use text_scan::{Kind, Limits, NoMemory};

fn mark_of(role: Role) -> &'static [u8] {
    match role {
        Role::Plain => b"",
        Role::Macro => b"!",
        Role::Misplaced => b"?",
        Role::TooDeep => b"^",
        Role::LongName => b"%",
    }
}

fn is_last(item: Left) -> bool {
    match item.role {
        Role::Plain | Role::Macro => item.token.kind == Kind::End,
        Role::Misplaced | Role::TooDeep | Role::LongName => true,
    }
}

// What is left of the text, with a mark for each role but plain; `$` is the text's end.
fn left_of(alloc: Global, text: &[u8], limits: &Limits) -> Result<Vec<u8>, NoMemory> {
    let mut directives = Directives::new(alloc, text, limits);
    let mut shown = Vec::new(alloc);
    for _ in 0..100 {
        let item = directives.next(alloc)?;
        shown.extend_from_slice(mark_of(item.role))?;
        if item.token.kind == Kind::End {
            shown.push(b'$')?;
        } else {
            shown.extend_from_slice(item.token.text(text))?;
        }
        if is_last(item) {
            return Ok(shown);
        }
        shown.push(b' ')?;
    }
    Ok(shown)
}

fn shows<R: Abort + Alloc<A = Global>>(rt: &R, rows: &[(&[u8], &[u8])]) -> Result<(), Fail> {
    let limits = Limits::standard();
    for (text, expected) in rows {
        let shown = left_of(rt.alloc(), text, &limits)?;
        assert_eq!(rt; shown.as_slice(), *expected);
    }
    Ok(())
}

#[test]
fn one_branch_of_a_condition_is_read(rt: HostRuntime) -> Result<(), Fail> {
    shows(
        &rt,
        &[
            (b"`ifdef A a `else b `endif c", b"b c $"),
            (b"`define A\n`ifdef A a `else b `endif c", b"a c $"),
            (b"`ifndef A a `else b `endif", b"a $"),
            (b"`define A\n`ifndef A a `else b `endif", b"b $"),
            (b"`ifdef A a `elsif B b `elsif C c `endif d", b"d $"),
            (b"`ifdef A a `elsif B b `elsif C c `else d `endif", b"d $"),
            (
                b"`define A\n`ifdef A a `elsif B b `elsif C c `else d `endif",
                b"a $",
            ),
            (
                b"`define B\n`ifdef A a `elsif B b `elsif C c `else d `endif",
                b"b $",
            ),
            (
                b"`define C\n`ifdef A a `elsif B b `elsif C c `else d `endif",
                b"c $",
            ),
            (
                b"`define A\n`define C\n`ifdef A a `elsif B b `elsif C c `else d `endif",
                b"a $",
            ),
            (
                b"`define B\n`define C\n`ifndef B a `elsif B b `elsif C c `else d `endif",
                b"b $",
            ),
        ],
    )
}

#[test]
fn conditions_nest(rt: HostRuntime) -> Result<(), Fail> {
    let text = b"`ifdef A `ifdef B ab `else a `endif `else `ifdef B b `else n `endif `endif";
    shows(
        &rt,
        &[
            (text, b"n $"),
            (
                b"`ifdef A `ifndef B x `elsif C y `else z `endif `endif w",
                b"w $",
            ),
            (
                b"`ifndef A `ifdef B x `elsif C y `else z `endif w `endif",
                b"z w $",
            ),
            (
                b"`ifndef A a `else `ifndef B b `else c `endif `endif",
                b"a $",
            ),
        ],
    )
}

#[test]
fn conditions_are_whole(rt: HostRuntime) -> Result<(), Fail> {
    shows(
        &rt,
        &[
            (b"`ifndef A a", b"a ?$"),
            (b"`ifdef A a", b"?$"),
            (b"`ifdef A `ifdef B `endif", b"?$"),
            (b"a `else b", b"a ?`"),
            (b"a `endif b", b"a ?`"),
            (b"`elsif A", b"?`"),
            (b"`ifdef A `endif `endif", b"?`"),
            (b"`ifdef A `else b `else c `endif", b"b ?`"),
            (b"`ifndef A `else b `elsif A c `endif", b"?`"),
            (b"`ifdef A `ifdef B `else `else `endif `endif", b"?`"),
        ],
    )
}

#[test]
fn directives_have_names(rt: HostRuntime) -> Result<(), Fail> {
    shows(
        &rt,
        &[
            (b"`ifdef\nmodule m", b"?module"),
            (b"`ifndef 1 a", b"?1"),
            (b"`ifdef", b"?$"),
            (b"`ifdef A `elsif \"B\" `endif", b"?\"B\""),
            (b"`ifdef A `ifdef ( `endif `endif", b"$"),
            (
                b"`ifdef A `ifndef X `elsif 1 `else `endif `elsif 1 `endif",
                b"?1",
            ),
            (b"`ifndef A a `elsif 1 `endif", b"a ?1"),
            (b"`undef \\ A", b"?\\"),
            (b"`undef\nA b", b"b $"),
            (b"`ifndef \\module a `endif", b"a $"),
            (b"`define \\A \n`ifdef A a `endif", b"a $"),
            (b"`ifdef A `undef 1 `define 1\n`endif", b"$"),
        ],
    )
}

#[test]
fn a_name_is_defined_alone_on_its_line(rt: HostRuntime) -> Result<(), Fail> {
    shows(
        &rt,
        &[
            (b"`define A", b"$"),
            (b"`define A // 1\n`ifdef A a `endif", b"a $"),
            (b"`define A 1\n`ifdef A a `else b `endif", b"!` b $"),
            (b"`define A `ifdef B\nb", b"!` b $"),
            (b"`define\nA `define", b"!` A !` $"),
            (b"`define 1\n", b"!` 1 $"),
            (b"`define A 1 \\\n `else \\ 2\nb", b"!` b $"),
            (b"`define A \\\n\\\r\n2\n\\ b", b"!` \\ b $"),
            (b"`define A \\\n\nb", b"!` b $"),
            (b"`timescale 1 \\\nb", b"b $"),
            (b"`define A\n`undef A\n`ifdef A a `else b `endif", b"b $"),
            (b"`define A\n`define A\n`undef A `ifndef A a `endif", b"a $"),
            (
                b"`ifdef A `define B\n`else `undef C `endif `ifdef B b `endif",
                b"$",
            ),
        ],
    )
}

#[test]
fn lines_are_passed_over_or_kept(rt: HostRuntime) -> Result<(), Fail> {
    shows(
        &rt,
        &[
            (b"`timescale 1ns / 1ps\na", b"a $"),
            (b"`celldefine a \"b\nc\" d `else\n`endcelldefine", b"d ?`"),
            (b"a `FOO b `else c\nd", b"a !` b ` else c d $"),
            (b"`include \"a\"\nb", b"!` \"a\" b $"),
            (b"` ifdef A\nb", b"!` ifdef A b $"),
            (b"`\\ifdef A\nb", b"!` A b $"),
            (b"a `", b"a !` $"),
            (b"`ifdef A `FOO `timescale `endif b", b"b $"),
            (b"a \"`else\" // `endif\n/* `elsif */ b", b"a \"`else\" b $"),
        ],
    )
}

#[test]
fn macros_in_parts_take_themselves_alone(rt: HostRuntime) -> Result<(), Fail> {
    shows(
        &rt,
        &[
            (
                b"module `A `endmodule `ifdef B b `endif\nendmodule `A `else\n",
                b"module !` !` endmodule !` ` else $",
            ),
            (
                b"primitive `A `ifdef B\n`endif endprimitive `A `ifdef",
                b"primitive !` endprimitive !` ` ifdef $",
            ),
            (
                b"module specify `A `else\nendspecify `A `ifdef A `endif",
                b"module specify !` ` else endspecify !` $",
            ),
            (
                b"module specify endmodule `A `else\nendspecify `A `else",
                b"module specify endmodule !` ` else endspecify !` ?`",
            ),
            (
                b"module `define A `else \\\n`else\n`define B `else",
                b"module !` !` $",
            ),
            (
                b"module specify `A endmodule\nmodule `A `ifdef A `endif",
                b"module specify !` endmodule module !` $",
            ),
            (b"`A module\n`B `else", b"!` module !` ` else $"),
            (b"\\module `A `else", b"\\module !` ` else $"),
        ],
    )
}

#[test]
fn wrong_tokens_are_left_everywhere(rt: HostRuntime) -> Result<(), Fail> {
    shows(
        &rt,
        &[
            (b"`ifdef A \x80 a `endif", b"\x80 $"),
            (b"`ifdef A a \"b `endif", b"\"b `endif ?$"),
            (b"`timescale 1 \x01 2\n3", b"\x01 3 $"),
            (b"`resetall /* a", b"/* a $"),
        ],
    )
}

#[test]
fn each_passed_over_word_is(rt: HostRuntime) -> Result<(), Fail> {
    shows(
        &rt,
        &[
            (
                b"`timescale x\n`celldefine x\n`endcelldefine x\n`resetall x\n`default_nettype x\ny",
                b"y $",
            ),
            (
                b"`suppress_faults x\n`nosuppress_faults x\n`enable_portfaults x\n`disable_portfaults x",
                b"$",
            ),
            (
                b"`delay_mode_path x\n`delay_mode_distributed x\n`delay_mode_unit x\n`delay_mode_zero x",
                b"$",
            ),
        ],
    )
}

#[test]
fn conditions_and_names_have_limits(rt: HostRuntime) -> Result<(), Fail> {
    let mut limits = Limits::standard();
    limits.nesting = 2;
    limits.name = 3;
    let rows: [(&[u8], &[u8]); 8] = [
        (
            b"`ifndef A `endif `ifndef A `ifndef B a `endif `endif",
            b"a $",
        ),
        (b"`ifndef A a `ifndef B b `ifndef 1 c", b"a b ^`"),
        (b"`ifdef A a `ifdef B b `ifdef C c", b"^`"),
        (b"`ifndef abc a `endif", b"a $"),
        (b"`ifndef abcd a", b"%abcd"),
        (b"`ifdef A `ifdef \\abcd `endif `ifdef \\abcd ", b"?$"),
        (b"`define \\abc \n`define abcd 1\n`define abcd", b"!` %abcd"),
        (b"`ifdef A `define abcd\n`endif `undef abcd", b"%abcd"),
    ];
    for (text, expected) in &rows {
        let shown = left_of(rt.alloc(), text, &limits)?;
        assert_eq!(rt; shown.as_slice(), *expected);
    }
    Ok(())
}

#[test]
fn the_last_item_stays(rt: HostRuntime) -> Result<(), Fail> {
    let limits = Limits::standard();
    let rows: [&[u8]; 3] = [b"a", b"`ifdef A", b"`else a"];
    for text in rows {
        let mut directives = Directives::new(rt.alloc(), text, &limits);
        for _ in 0..3 {
            directives.next(rt.alloc())?;
        }
        let item = directives.next(rt.alloc())?;
        assert!(rt; is_last(item));
        assert_eq!(rt; directives.next(rt.alloc())?, item);
    }
    Ok(())
}

#[test]
fn names_of_words(rt: HostRuntime) {
    assert_eq!(rt; name_in(b"a1"), Some(b"a1".as_slice()));
    assert_eq!(rt; name_in(b"\\table"), Some(b"table".as_slice()));
    assert!(rt; name_in(b"table").is_none());
    assert!(rt; name_in(b"1a").is_none());
    assert!(rt; name_in(b"\\").is_none());
    assert!(rt; is_reserved(b"xnor"));
    assert!(rt; !is_reserved(b"assign"));
}

#[test]
fn words_and_signs_are_gone_over_at_once(rt: HostRuntime) -> Result<(), Fail> {
    let text = b"`celldefine a\n (b) // endspecify\n 1.5;ender c".as_slice();
    let limits = Limits::standard();
    let mut directives = Directives::new(rt.alloc(), text, &limits);
    directives.skim();
    let first = directives.next(rt.alloc())?;
    assert_eq!(&rt; first.token.text(text), b"(".as_slice());
    directives.skim();
    let second = directives.next(rt.alloc())?;
    assert_eq!(&rt; second.token.text(text), b"ender".as_slice());
    assert_eq!(&rt; second.token.span.line, 3u32);
    assert_eq!(&rt; second.token.span.column, 6u32);
    Ok(())
}
