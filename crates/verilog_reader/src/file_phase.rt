//! Where a reader of a file stands, and what an item does outside parts.

/// What was read last.
#[derive(Clone, Copy, Debug)]
pub enum FilePhase {
    /// Whole parts, or nothing.
    Top,
    /// A directive or macro that isn't obeyed, on this line.
    Line { line: u32 },
    /// `module`.
    ModuleWord,
    /// `primitive`.
    PrimitiveWord,
    /// A module's name, and maybe some of the module.
    Module,
    /// A primitive's name, and maybe some of the primitive.
    Primitive,
    /// Some of a part that is refused.
    Rest,
    /// The whole file.
    Done,
}

/// What an item outside parts adds.
#[derive(Clone, Copy, Debug)]
pub enum FileAction {
    Keep,
    BeginLine,
    CountModule,
    CountPrimitive,
    NameModule,
    NamePrimitive,
    End,
}

/// What an item outside parts does: it stops the reading, or it acts and leads on.
#[derive(Clone, Copy, Debug)]
pub enum FileMove {
    Stop,
    Go(FileAction, FilePhase),
}
