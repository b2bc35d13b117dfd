use super::*;
use std::process::Abort;
use std::test::Fail;
use text_scan::Limits;

#[test]
fn what_says_something_in_a_cell_is_kept(rt: HostRuntime) -> Result<(), Fail> {
    let source =
        b"library(l){time_unit:\"1ns\";cell(A){area:1;pin(B){direction:input;x(){y:1;}}ff(Q,N){}}}";
    let statements = read_statements(rt.alloc(), source, &Limits::standard())?;
    let [cell] = statements.cells.as_slice() else {
        assert!(rt; false);
        return Ok(());
    };
    assert_eq!(rt; cell.word.span.column, 28);
    assert_eq!(rt; cell.groups.len(), 2);
    assert_eq!(rt; cell.groups.as_slice()[0].attributes.len(), 1);
    assert_eq!(rt; cell.groups.as_slice()[1].args.len(), 2);
    Ok(())
}
