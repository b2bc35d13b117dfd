//! Up to which words a reader passes over others.
use text_scan::Token;

/// The word up to which words and strings are passed over.
#[derive(Clone, Copy, Debug)]
pub enum Until {
    /// `;`.
    Semicolon,
    /// `END`.
    End,
    /// `ENDEXT`.
    EndExt,
}

/// The word that closes a part behind its `END`.
#[derive(Clone, Copy, Debug)]
pub enum Closing {
    /// This name, as it stands.
    Name(Token),
    /// This keyword, whatever the case of its letters.
    Keyword(Token),
}

/// What has begun outside macros.
#[derive(Clone, Copy, Debug)]
pub enum Opened {
    /// A statement, which was passed over.
    Nothing,
    /// A section, up to `END` and this word.
    Section(Closing),
    /// The macro of this name.
    Macro(Token),
    /// The end of the file.
    End,
}
