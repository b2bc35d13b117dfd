//! Where a reader of a module stands, and what an item does there.

/// What was read last of a module. Instances of `buf` and `not` have `outputs`: all terminals but the last are outputs.
#[derive(Clone, Copy, Debug)]
pub enum ModulePhase {
    /// The module's name.
    Header,
    /// The parenthesis before the port list.
    Ports,
    /// A comma of the port list.
    Port,
    /// A direction of the port list.
    PortNet,
    /// `wire` or `reg` in the port list.
    PortName,
    /// A port's name.
    PortEnd,
    /// The parenthesis after the port list.
    HeaderEnd,
    /// The semicolon after the header, or whole items.
    Items,
    /// The word of a declaration, or a comma in it.
    Name,
    /// A name of a declaration.
    NameEnd,
    /// The word or name with which instances begin.
    Kind { outputs: bool },
    /// The sign before a delay.
    Hash { outputs: bool },
    /// Parentheses of a delay, of which so many are open.
    Delay { outputs: bool, depth: usize },
    /// A delay, or a comma between instances.
    Instance { outputs: bool },
    /// An instance's name.
    Labelled { outputs: bool },
    /// The parenthesis before the terminals.
    Output { outputs: bool, labelled: bool },
    /// A comma between terminals.
    Terminal { outputs: bool },
    /// A terminal.
    TerminalEnd { outputs: bool },
    /// A constant, which is the last terminal.
    Last { outputs: bool },
    /// The parenthesis after the terminals.
    InstanceEnd { outputs: bool },
    /// `specify`, or what is passed over after it.
    Specify,
    /// A directive or macro in it, on this line.
    SpecifyLine { line: u32 },
    /// The module's end.
    Done,
}

/// What an item adds to what is kept of a module.
#[derive(Clone, Copy, Debug)]
pub enum ModuleAction {
    Keep,
    Direct,
    AddPort,
    BeginDeclaration,
    Declare,
    BeginGate,
    BeginPrimitive,
    CheckName,
    Label,
    AddOutput,
    AddNet,
    AddConstant,
    EndInstance,
    EndModule,
}

/// What an item does: it stops the reading, or it acts and leads on.
#[derive(Clone, Copy, Debug)]
pub enum ModuleMove {
    Stop,
    Go(ModuleAction, ModulePhase),
}
