use super::*;
use std::process::Abort;
use std::test::Fail;
use text_scan::{Cursor, Limits, Style};

#[test]
fn tokens_are_told_apart(rt: HostRuntime) -> Result<(), Fail> {
    let source = b"Direction a; \"VDD\" \"a;\"".as_slice();
    let mut cursor = Cursor::new(source, Style::Lef);
    let keyword = cursor.next_token();
    let name = cursor.next_token();
    let string = cursor.next_token();
    let other = cursor.next_token();
    let limits = Limits::standard();
    assert!(rt; is_same_word(text(source, keyword), b"DIRECTION"));
    assert_eq!(rt; look_of(source, keyword), Look::Direction);
    assert!(rt; is_word(keyword) && can_name(source, &limits, keyword));
    assert!(rt; is_passed(name) && !can_name(source, &limits, name));
    assert!(rt; is_passed(string) && !is_word(string));
    assert_eq!(rt;
        word_of(rt.alloc(), source, string)?.as_bytes(),
        b"VDD".as_slice()
    );
    assert_eq!(rt;
        word_of(rt.alloc(), source, other)?.as_bytes(),
        b"string".as_slice()
    );
    Ok(())
}
