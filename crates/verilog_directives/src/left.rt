use text_scan::Token;

/// What a token is for the grammar.
#[derive(Clone, Copy, Debug, PartialEq, Eq)]
pub enum Role {
    /// A token that is read. The text's end is the last of them.
    Plain,
    /// The `` ` `` of a directive or macro that isn't obeyed; the word that touches it isn't left, nor is the text of a
    /// definition. Outside modules and primitives, and in specify blocks, the other tokens of its line are plain:
    /// directives among them aren't obeyed either.
    Macro,
    /// What may not stand here: a directive outside its condition, another token in the place of a directive's name,
    /// or the text's end in an open condition.
    Misplaced,
    /// The `` ` `` of a condition above the greatest number of open conditions.
    TooDeep,
    /// The name of an obeyed directive, with more bytes than a name may have.
    LongName,
}

/// A token as the directives leave it.
#[derive(Clone, Copy, Debug, PartialEq, Eq)]
pub struct Left {
    pub token: Token,
    pub role: Role,
}
