//! Texts, tokens and what every reader shares.
#![tactic(auto)]

mod bytes;
mod cursor;
mod items;
mod laws;
mod limits;
mod memory;
mod piece;
mod pins;
mod place;
mod reading;
mod refusal;
mod search;
mod text;
mod token;

pub use bytes::{is_blank, is_digit, is_letter};
pub use cursor::Cursor;
pub use items::Items;
pub use laws::{firm_tokens_stay, one_token_is_open, parts_have_their_tokens};
pub use limits::{LimitKind, Limits};
pub use memory::NoMemory;
pub use pins::{Direction, PinKind};
pub use refusal::FileRefusal;
pub use search::{until_byte, until_identifier_end, until_number_end};
pub use text::Text;
pub use token::{Kind, Place, Span, Style, Token};

#[cfg(test)]
mod tests;
