use crate::example::{SumRefusal, sum_of};

#[test]
fn sums_are_told(rt: HostRuntime) {
    assert_eq!(rt; sum_of(b"."), Ok(0));
    assert_eq!(rt; sum_of(b"1203."), Ok(6));
}

#[test]
fn the_first_refusal_is_told_with_its_index(rt: HostRuntime) {
    assert_eq!(rt; sum_of(b""), Err(SumRefusal::Syntax(0)));
    assert_eq!(rt; sum_of(b"12"), Err(SumRefusal::Syntax(2)));
    assert_eq!(rt; sum_of(b"1x99."), Err(SumRefusal::Syntax(1)));
    assert_eq!(rt; sum_of(b"1.."), Err(SumRefusal::Syntax(2)));
    assert_eq!(rt; sum_of(b"73x"), Err(SumRefusal::TooLarge(1)));
}
