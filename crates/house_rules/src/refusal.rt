//! Why a book takes no more.

/// Why a rule doesn't come into a book.
#[derive(Debug, Drop)]
pub enum BookRefusal {
    NoMemory,
    /// The book has 16 rules.
    Full,
}
