use super::*;
use crate::Kind::{End, LineEnd, Sign, Str, Unfinished, Word};
use std::process::Abort;
use std::test::Fail;

type Shown = (Kind, u32, u32, usize, usize);

// The tokens of the text, with line, column, start and end; the last stays for ever.
fn shows(rt: &impl Abort, style: Style, text: &[u8], tokens: &[Shown]) {
    let mut cursor = Cursor::new(text, style);
    let mut last = cursor.next_token();
    for (i, shown) in tokens.iter().enumerate() {
        if i > 0 {
            last = cursor.next_token();
        }
        let (kind, line, column, start, end) = *shown;
        let span = Span {
            line,
            column,
            start,
            end,
        };
        assert_eq!(rt; last, Token { kind, span });
    }
    assert_eq!(rt; cursor.next_token(), last);
}

#[test]
fn an_empty_text_is_its_end(rt: HostRuntime) {
    for style in [Style::Liberty, Style::Verilog, Style::Lef, Style::Words] {
        shows(&rt, style, b"", &[(End, 1, 1, 0, 0)]);
    }
}

#[test]
fn liberty_has_words_strings_signs_and_line_ends(rt: HostRuntime) {
    let style = Style::Liberty;
    shows(
        &rt,
        style,
        b"a:\"b\";\r\n",
        &[
            (Word, 1, 1, 0, 1),
            (Sign, 1, 2, 1, 2),
            (Str, 1, 3, 2, 5),
            (Sign, 1, 6, 5, 6),
            (LineEnd, 1, 8, 7, 8),
            (End, 2, 1, 8, 8),
        ],
    );
    shows(
        &rt,
        style,
        b"\0(\x80",
        &[
            (Sign, 1, 1, 0, 1),
            (Sign, 1, 2, 1, 2),
            (Sign, 1, 3, 2, 3),
            (End, 1, 4, 3, 3),
        ],
    );
    shows(
        &rt,
        style,
        b"\"\\\n\" x",
        &[(Str, 1, 1, 0, 4), (Word, 2, 3, 5, 6), (End, 2, 4, 6, 6)],
    );
    shows(
        &rt,
        style,
        b"a\\\nb",
        &[(Word, 1, 1, 0, 1), (Word, 2, 1, 3, 4), (End, 2, 2, 4, 4)],
    );
    shows(
        &rt,
        style,
        b"a\\\r\n",
        &[(Word, 1, 1, 0, 2), (LineEnd, 1, 4, 3, 4), (End, 2, 1, 4, 4)],
    );
    shows(&rt, style, b"\\x", &[(Word, 1, 1, 0, 2), (End, 1, 3, 2, 2)]);
}

#[test]
fn liberty_comments_end_words_and_are_passed_over(rt: HostRuntime) {
    let style = Style::Liberty;
    shows(
        &rt,
        style,
        b"a/*\n*/b",
        &[(Word, 1, 1, 0, 1), (Word, 2, 3, 6, 7), (End, 2, 4, 7, 7)],
    );
    shows(
        &rt,
        style,
        b"/*/ x*/ y",
        &[(Word, 1, 9, 8, 9), (End, 1, 10, 9, 9)],
    );
    shows(
        &rt,
        style,
        b"/***/y",
        &[(Word, 1, 6, 5, 6), (End, 1, 7, 6, 6)],
    );
    shows(&rt, style, b"a/b", &[(Word, 1, 1, 0, 3), (End, 1, 4, 3, 3)]);
}

#[test]
fn what_is_not_closed_is_unfinished_from_its_start(rt: HostRuntime) {
    for style in [Style::Liberty, Style::Verilog, Style::Lef] {
        shows(
            &rt,
            style,
            b"x \"y\n",
            &[
                (Word, 1, 1, 0, 1),
                (Unfinished, 1, 3, 2, 5),
                (End, 2, 1, 5, 5),
            ],
        );
        shows(
            &rt,
            style,
            b"\"",
            &[(Unfinished, 1, 1, 0, 1), (End, 1, 2, 1, 1)],
        );
    }
    for style in [Style::Liberty, Style::Verilog] {
        shows(
            &rt,
            style,
            b" /*",
            &[(Unfinished, 1, 2, 1, 3), (End, 1, 4, 3, 3)],
        );
        shows(
            &rt,
            style,
            b"/*/",
            &[(Unfinished, 1, 1, 0, 3), (End, 1, 4, 3, 3)],
        );
        shows(
            &rt,
            style,
            b"/* *",
            &[(Unfinished, 1, 1, 0, 4), (End, 1, 5, 4, 4)],
        );
    }
}

#[test]
fn verilog_has_identifiers_numbers_and_signs(rt: HostRuntime) {
    let style = Style::Verilog;
    shows(
        &rt,
        style,
        b"_a$1 1'b0;\n`x",
        &[
            (Word, 1, 1, 0, 4),
            (Word, 1, 6, 5, 9),
            (Sign, 1, 10, 9, 10),
            (Sign, 2, 1, 11, 12),
            (Word, 2, 2, 12, 13),
            (End, 2, 3, 13, 13),
        ],
    );
    shows(
        &rt,
        style,
        b"\\a;b c \\",
        &[
            (Word, 1, 1, 0, 4),
            (Word, 1, 6, 5, 6),
            (Word, 1, 8, 7, 8),
            (End, 1, 9, 8, 8),
        ],
    );
    shows(
        &rt,
        style,
        b"a//b\n/c/*d*/e",
        &[
            (Word, 1, 1, 0, 1),
            (Sign, 2, 1, 5, 6),
            (Word, 2, 2, 6, 7),
            (Word, 2, 8, 12, 13),
            (End, 2, 9, 13, 13),
        ],
    );
    shows(
        &rt,
        style,
        b"x //",
        &[(Word, 1, 1, 0, 1), (End, 1, 5, 4, 4)],
    );
    shows(
        &rt,
        style,
        b"\0\x7f/",
        &[
            (Sign, 1, 1, 0, 1),
            (Sign, 1, 2, 1, 2),
            (Sign, 1, 3, 2, 3),
            (End, 1, 4, 3, 3),
        ],
    );
}

#[test]
fn lef_and_plain_words_end_at_blanks(rt: HostRuntime) {
    shows(
        &rt,
        Style::Lef,
        b"I;#\"x #y\n\"a b\"c\x01",
        &[
            (Word, 1, 1, 0, 5),
            (Str, 2, 1, 9, 14),
            (Word, 2, 6, 14, 16),
            (End, 2, 8, 16, 16),
        ],
    );
    shows(
        &rt,
        Style::Words,
        b"\"a /*\r\n#",
        &[
            (Word, 1, 1, 0, 2),
            (Word, 1, 4, 3, 5),
            (LineEnd, 1, 7, 6, 7),
            (Word, 2, 1, 7, 8),
            (End, 2, 2, 8, 8),
        ],
    );
}

#[test]
fn a_token_is_a_slice_of_its_text(rt: HostRuntime) {
    let text = b"cell (x)";
    let mut cursor = Cursor::new(text, Style::Liberty);
    assert_eq!(rt; cursor.next_token().text(text), b"cell".as_slice());
    assert_eq!(rt; cursor.next_token().text(text), b"(".as_slice());
    let mut cursor = Cursor::going_on(b"\nx", Style::Words, u32::MAX, 7);
    assert_eq!(rt; cursor.next_token().span.column, 7);
    assert_eq!(rt; cursor.next_token().span.line, u32::MAX);
}

#[test]
fn limits_have_numbers_and_words(rt: HostRuntime) -> Result<(), Fail> {
    let limits = Limits::standard();
    assert_eq!(rt;
        (
            limits.file,
            limits.cells,
            limits.nesting,
            limits.name,
            limits.records
        ),
        (134_217_728, 4096, 32, 128, 65_536)
    );
    let words = format!(in rt.alloc();
        "{} {} {}",
        LimitKind::UdpInputs,
        LimitKind::Name,
        LimitKind::Records
    )?;
    assert_eq!(rt; words.as_str(), "udp_inputs name records");
    Ok(())
}

#[test]
fn a_text_holds_its_bytes(rt: HostRuntime) -> Result<(), Fail> {
    let text = Text::from_bytes(rt.alloc(), b"cell")?;
    assert_eq!(rt; text.as_bytes(), b"cell".as_slice());
    assert_eq!(rt; text.copied(rt.alloc())?.as_bytes(), b"cell".as_slice());
    Ok(())
}

#[test]
fn items_stand_in_the_order_of_their_pushes(rt: HostRuntime) -> Result<(), Fail> {
    let mut items: Items<u32> = Items::new(rt.alloc());
    items.push(3)?;
    items.push(1)?;
    assert_eq!(rt; items.as_slice(), [3, 1].as_slice());
    assert_eq!(rt; items.len(), 2);
    Ok(())
}

#[test]
fn refusals_print_as_a_refusal_line_says_them(rt: HostRuntime) -> Result<(), Fail> {
    let name = Text::from_bytes(rt.alloc(), b"INV_X1")?;
    let lines = format!(in rt.alloc();
        "{}; {}; {}",
        FileRefusal::Syntax {
            line: 1,
            column: 17
        },
        FileRefusal::TooMany {
            kind: LimitKind::Nesting,
            number: 32
        },
        FileRefusal::DoubleName { name, line: 4 }
    )?;
    assert_eq!(rt;
        lines.as_str(),
        "syntax line 1 column 17; too many nesting 32; double name INV_X1 line 4"
    );
    Ok(())
}

#[test]
fn tokens_behind_a_whole_text_are_moved(rt: HostRuntime) {
    // "a \"b\n\"" ends at a string's end, in line 2, column 2
    let mut both = Cursor::new(b"a \"b\n\"c\nd", Style::Verilog);
    let mut alone = Cursor::new(b"c\nd", Style::Verilog);
    let _ = both.next_token();
    let _ = both.next_token();
    let (c, alone_c) = (both.next_token(), alone.next_token());
    assert_eq!(rt;
        (alone_c.span.line, alone_c.span.column, alone_c.span.start),
        (1, 1, 0)
    );
    assert_eq!(rt; (c.span.line, c.span.column, c.span.start), (2, 2, 6));
    let (d, alone_d) = (both.next_token(), alone.next_token());
    assert_eq!(rt;
        (alone_d.span.line, alone_d.span.column, alone_d.span.start),
        (2, 1, 2)
    );
    assert_eq!(rt; (d.span.line, d.span.column, d.span.start), (3, 1, 8));
}
