use super::*;
use file_rules::is_name;
use std::process::Abort;
use std::test::Fail;
use text_scan::{Cursor, Style};

#[test]
fn strings_stand_for_their_contents(rt: HostRuntime) -> Result<(), Fail> {
    let source = b"\"a\\\nb\nc\" \"C D\"".as_slice();
    let mut cursor = Cursor::new(source, Style::Liberty);
    let first = cursor.next_token();
    let second = cursor.next_token();
    assert_eq!(rt;
        content(rt.alloc(), source, first)?.as_bytes(),
        b"ab c".as_slice()
    );
    assert_eq!(rt; between(source, first, second), source);
    assert!(rt; matches!(look_of(source, second), Look::Str));
    let row = content(rt.alloc(), source, second)?;
    assert!(rt; !is_name(row.as_bytes()));
    let found = columns(rt.alloc(), row.as_bytes())?;
    assert_eq!(rt; found.len(), 2);
    assert!(rt; is_name(found.as_slice()[1].as_bytes()));
    Ok(())
}

#[test]
fn words_are_told_apart(rt: HostRuntime) {
    assert_eq!(rt; group_kind(b"pg_pin"), GroupKind::PgPin);
    assert_eq!(rt; group_kind(b"timing"), GroupKind::Other);
    assert_eq!(rt;
        attribute_kind(b"clear_preset_var2"),
        AttributeKind::SecondBoth
    );
    assert!(rt; is_cell(b"cell") && is_library(b"library") && is_include(b"include_file"));
    assert!(rt; !is_cell(b"Cell"));
}
