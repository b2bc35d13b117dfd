//! How readers tell that a limit is passed and where a file goes wrong.
ghost use Rattle.std.specs.Prelude.{◌≡◌};
ghost use Rattle.file_rules.specs.Refusals as spec;

use text_scan::{FileRefusal, LimitKind, Limits, Token};

fn limit_of(limits: &Limits, kind: LimitKind) -> u32
    ensures { result ≡ spec.limit_of limits.now kind }
{
    match kind {
        LimitKind::Name => limits.name,
        LimitKind::Cells => limits.cells,
        LimitKind::Nesting => limits.nesting,
        LimitKind::Records => limits.records,
        _ => 0,
    }
}

/// More of this kind than the limits allow; the number is the limit. Only names, cells, nesting and records have
/// a limit of files, and of any other kind the number is 0.
pub fn too_many(limits: &Limits, kind: LimitKind) -> FileRefusal
    ensures { result ≡ spec.too_many limits.now kind }
{
    FileRefusal::TooMany {
        kind,
        number: limit_of(limits, kind),
    }
}

/// Nothing that the grammar allows goes on with the token: its line and column are told.
pub fn at_token(token: Token) -> FileRefusal
    ensures { result ≡ spec.at_token token }
{
    FileRefusal::Syntax {
        line: token.span.line,
        column: token.span.column,
    }
}
