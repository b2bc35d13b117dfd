/// The direction of a pin. A view that names none for a pin has `Absent`.
#[derive(Clone, Copy, Debug, PartialEq, Eq)]
pub enum Direction {
    Input,
    Output,
    Inout,
    Feedthru,
    Internal,
    Absent,
}

/// What a pin is for: a signal, or a supply.
#[derive(Clone, Copy, Debug, PartialEq, Eq)]
pub enum PinKind {
    Signal,
    Power,
    Ground,
}
