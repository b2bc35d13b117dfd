//! Where a reader of a primitive stands, and what an item does there.

/// What was read last of a primitive.
#[derive(Clone, Copy, Debug)]
pub enum UdpPhase {
    /// The primitive's name.
    Header,
    /// The parenthesis before the port list, or a comma of it.
    Port,
    /// `output` in the port list.
    OutputPort,
    /// `output reg` or `input` in the port list.
    PortName,
    /// A port's name.
    PortEnd,
    /// The parenthesis after the port list.
    HeaderEnd,
    /// The semicolon after the header, or whole declarations.
    Declarations,
    /// The word of a declaration, or a comma in it.
    Name,
    /// A name of a declaration.
    NameEnd,
    /// `initial`, or what is passed over after it.
    Initial,
    /// The semicolon after it.
    TableWord,
    /// `table`, or whole rows.
    Rows,
    /// A symbol of a row.
    Row,
    /// `endtable`.
    TableEnd,
    /// The primitive's end.
    Done,
}

/// What an item adds to what is kept of a primitive.
#[derive(Clone, Copy, Debug)]
pub enum UdpAction {
    Keep,
    BeginOutput,
    BeginOutputReg,
    BeginInput,
    AddPort,
    BeginDeclaration,
    Declare,
    AddSymbols,
    EndRow,
}

/// What an item does: it stops the reading, or it acts and leads on.
#[derive(Clone, Copy, Debug)]
pub enum UdpMove {
    Stop,
    Go(UdpAction, UdpPhase),
}
