//! What a line says, by its first word.
ghost use Rattle.std.specs.Prelude.{◌≡◌};
ghost use Rattle.correspondence.specs.Kinds as spec;

/// The kind of a line.
#[derive(Clone, Copy, Debug, PartialEq, Eq)]
pub enum LineKind {
    /// It begins a table.
    Table,
    Pins,
    Xpins,
    State,
    Udps,
    Nodes,
    Row,
    /// It ends a table.
    End,
    Other,
}

#[tactic(auto, unfolding(crate::specs::Kinds::kind_of_word))]
pub(crate) fn kind_of_word(word: &[u8]) -> LineKind
    ensures { result ≡ spec.kind_of_word word.now }
{
    if word == b"row".as_slice() {
        LineKind::Row
    } else if word == b"table".as_slice() {
        LineKind::Table
    } else if word == b"pins".as_slice() {
        LineKind::Pins
    } else if word == b"xpins".as_slice() {
        LineKind::Xpins
    } else if word == b"state".as_slice() {
        LineKind::State
    } else if word == b"udps".as_slice() {
        LineKind::Udps
    } else if word == b"nodes".as_slice() {
        LineKind::Nodes
    } else if word == b"end".as_slice() {
        LineKind::End
    } else {
        LineKind::Other
    }
}

impl LineKind {
    fn is(self, kind: LineKind) -> bool
        ensures { result ≡ spec.is_kind kind self }
    {
        self as u8 == kind as u8
    }

    /// Whether a line of this kind can follow one of that kind, or begin a file where it can follow the end of a table.
    pub(crate) fn follows(self, last: LineKind) -> bool
        ensures { result ≡ spec.follows last self }
    {
        match last {
            LineKind::End => self.is(LineKind::Table),
            LineKind::Table => self.is(LineKind::Pins),
            LineKind::Pins => self.is(LineKind::Xpins) || self.is(LineKind::State),
            LineKind::Xpins => self.is(LineKind::State),
            LineKind::State => self.is(LineKind::Udps),
            LineKind::Udps => self.is(LineKind::Nodes),
            LineKind::Nodes | LineKind::Row => self.is(LineKind::Row) || self.is(LineKind::End),
            LineKind::Other => false,
        }
    }
}
