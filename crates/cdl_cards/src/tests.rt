use super::*;
use std::process::Abort;
use std::test::Fail;

fn is_word(word: Option<Word<'_>>, bytes: &[u8], place: (u32, u32)) -> bool {
    match word {
        Some(word) => word.bytes == bytes && (word.line, word.column) == place,
        None => false,
    }
}

#[test]
fn a_card_goes_on_over_lines(rt: HostRuntime) -> Result<(), Fail> {
    let mut cards = Cards::new(b"* c\n.SUBCKT A $ x\n\n* c\n +B $Y\nM1");
    assert!(rt; is_word(cards.next_card(), b".SUBCKT", (2, 1)));
    assert!(rt; is_word(cards.next_word(), b"A", (2, 9)));
    assert!(rt; is_word(cards.next_word(), b"B", (5, 3)));
    assert!(rt; cards.next_word().is_none());
    assert!(rt; is_word(cards.next_card(), b"M1", (6, 1)));
    assert!(rt; cards.next_card().is_none());
    Ok(())
}

#[test]
fn texts_have_ends_and_stray_lines(rt: HostRuntime) -> Result<(), Fail> {
    assert!(rt; is_word(stray_word(b"* c\n\t+A B"), b"+A", (2, 2)));
    assert!(rt; stray_word(b"M1\n+ A").is_none());
    let end = end_of(b"M1\nM2 A");
    assert!(rt; (end.line, end.column) == (2, 5));
    assert!(rt; is_same_word(b".Ends", b".ENDS"));
    assert!(rt; is_pin_info(b"*.pinInfo"));
    Ok(())
}
