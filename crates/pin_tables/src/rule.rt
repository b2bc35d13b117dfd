//! What a view breaks at one of Liberty's pins.
ghost use Rattle.std.specs.Prelude.{◌≡◌};
ghost use Rattle.pin_tables.specs.Rules as spec;

use crate::table::Role;
use text_scan::{Direction, PinKind};
use verdict_text::{Code, View};

pub(crate) fn is_supply(kind: PinKind) -> bool
    ensures { result ≡ spec.is_supply kind }
{
    match kind {
        PinKind::Signal => false,
        PinKind::Power | PinKind::Ground => true,
    }
}

// Whether the view has a direction, and another than Liberty.
fn is_turned(liberty: Direction, view: Direction) -> bool
    ensures { result ≡ spec.is_turned liberty view }
{
    match (liberty, view) {
        (_, Direction::Absent)
        | (Direction::Input, Direction::Input)
        | (Direction::Output, Direction::Output)
        | (Direction::Inout, Direction::Inout)
        | (Direction::Feedthru, Direction::Feedthru)
        | (Direction::Internal, Direction::Internal) => false,
        _ => true,
    }
}

fn is_other_kind(liberty: PinKind, view: PinKind) -> bool
    ensures { result ≡ spec.is_other_kind liberty view }
{
    match (liberty, view) {
        (PinKind::Signal, PinKind::Signal)
        | (PinKind::Power, PinKind::Power)
        | (PinKind::Ground, PinKind::Ground) => false,
        _ => true,
    }
}

fn is_verilog(view: View) -> bool
    ensures { result ≡ spec.is_verilog view }
{
    matches!(view, View::Verilog)
}

fn is_lef(view: View) -> bool
    ensures { result ≡ spec.is_lef view }
{
    matches!(view, View::Lef)
}

/// The code of what the view breaks, which says this of Liberty's pin, or lacks it.
pub(crate) fn broken(view: View, liberty: Role, said: Option<Role>) -> Option<Code>
    ensures { result ≡ spec.broken view liberty said }
{
    match said {
        None => {
            if is_verilog(view) && is_supply(liberty.kind) {
                None
            } else {
                Some(Code::P2)
            }
        }
        Some(role) => {
            if !is_supply(liberty.kind) && is_turned(liberty.direction, role.direction) {
                Some(Code::P3)
            } else if is_lef(view) && is_other_kind(liberty.kind, role.kind) {
                Some(Code::P4)
            } else {
                None
            }
        }
    }
}
