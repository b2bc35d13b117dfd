use super::*;
use std::process::Abort;
use std::test::Fail;
use text_scan::{FileRefusal, Kind, LimitKind, Limits, Span, Token};

#[test]
fn names_and_shown_words(rt: HostRuntime) -> Result<(), Fail> {
    assert!(rt; is_name(b"A[3]"));
    assert!(rt; !is_name(b"*"));
    assert!(rt; is_too_long(&Limits::standard(), &[b'a'; 129]));
    assert_eq!(rt; shown_word(b"\x7f"), b"wide".as_slice());
    assert_eq!(rt; shown_string(b"A B"), b"string".as_slice());
    assert_eq!(rt; slice(b"abc", 1, 9), b"bc".as_slice());
    Ok(())
}

fn is_too_many(refusal: FileRefusal, limit: LimitKind, most: u32) -> bool {
    match refusal {
        FileRefusal::TooMany { kind, number } => kind == limit && number == most,
        _ => false,
    }
}

#[test]
fn refusals_are_told(rt: HostRuntime) -> Result<(), Fail> {
    let limits = Limits::standard();
    assert!(rt; is_too_many(too_many(&limits, LimitKind::Name), LimitKind::Name, 128));
    assert!(rt;
        is_too_many(
            too_many(&limits, LimitKind::Records),
            LimitKind::Records,
            65_536
        )
    );
    assert!(rt; is_too_many(too_many(&limits, LimitKind::Rows), LimitKind::Rows, 0));
    let token = Token {
        kind: Kind::Word,
        span: Span {
            line: 2,
            column: 3,
            start: 4,
            end: 5,
        },
    };
    let is_there = match at_token(token) {
        FileRefusal::Syntax { line, column } => line == 2 && column == 3,
        _ => false,
    };
    assert!(rt; is_there);
    Ok(())
}
