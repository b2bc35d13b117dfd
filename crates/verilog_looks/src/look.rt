//! What an item of a Verilog text is for the grammar.
ghost use Rattle.std.specs.Prelude.{◌≡◌};
ghost use Rattle.verilog_looks.specs.Looks as spec;

use crate::names::text;
use text_scan::Kind;
use verilog_directives::{Left, Role};

/// What an item is for the grammar. The grammar's own words are no identifiers.
#[derive(Clone, Copy, Debug, PartialEq, Eq)]
pub enum Look {
    /// An identifier, escaped or not.
    Name,
    /// The word of a gate with one output.
    Gate,
    /// `buf` or `not`, whose terminals but the last are outputs.
    Buffer,
    Module,
    EndModule,
    Primitive,
    EndPrimitive,
    Input,
    Output,
    Inout,
    Wire,
    Reg,
    Supply0,
    Supply1,
    Specify,
    EndSpecify,
    Table,
    EndTable,
    Initial,
    /// `1'b0`.
    Zero,
    /// `1'b1`.
    One,
    /// Any other number.
    Number,
    Open,
    Close,
    Comma,
    Semicolon,
    Hash,
    /// A string or any other sign.
    Other,
    /// The `` ` `` of a directive or macro that isn't obeyed.
    Macro,
    /// What may stand nowhere.
    Barred,
    /// The end of the text.
    End,
}

#[tactic(auto, unfolding(crate::specs::Looks::sign_look))]
fn sign_look(byte: u8) -> Look
    ensures { result ≡ spec.sign_look byte }
{
    match byte {
        b'(' => Look::Open,
        b')' => Look::Close,
        b',' => Look::Comma,
        b';' => Look::Semicolon,
        b'#' => Look::Hash,
        _ => other_look(byte),
    }
}

#[tactic(auto, unfolding(crate::specs::Looks::other_look))]
fn other_look(byte: u8) -> Look
    ensures { result ≡ spec.other_look byte }
{
    if 33 <= byte && byte <= 126 {
        Look::Other
    } else {
        Look::Barred
    }
}

#[tactic(auto, unfolding(crate::specs::Looks::three_look))]
fn three_look(word: &[u8]) -> Look
    ensures { result ≡ spec.three_look word.now }
{
    if word == b"and".as_slice() || word == b"nor".as_slice() || word == b"xor".as_slice() {
        Look::Gate
    } else if word == b"not".as_slice() || word == b"buf".as_slice() {
        Look::Buffer
    } else if word == b"reg".as_slice() {
        Look::Reg
    } else {
        Look::Name
    }
}

#[tactic(auto, unfolding(crate::specs::Looks::four_look))]
fn four_look(word: &[u8]) -> Look
    ensures { result ≡ spec.four_look word.now }
{
    if word == b"nand".as_slice() || word == b"xnor".as_slice() {
        Look::Gate
    } else if word == b"wire".as_slice() {
        Look::Wire
    } else {
        Look::Name
    }
}

#[tactic(auto, unfolding(crate::specs::Looks::five_look))]
fn five_look(word: &[u8]) -> Look
    ensures { result ≡ spec.five_look word.now }
{
    if word == b"input".as_slice() {
        Look::Input
    } else if word == b"inout".as_slice() {
        Look::Inout
    } else if word == b"table".as_slice() {
        Look::Table
    } else {
        Look::Name
    }
}

#[tactic(auto, unfolding(crate::specs::Looks::six_look))]
fn six_look(word: &[u8]) -> Look
    ensures { result ≡ spec.six_look word.now }
{
    if word == b"output".as_slice() {
        Look::Output
    } else if word == b"module".as_slice() {
        Look::Module
    } else {
        Look::Name
    }
}

#[tactic(auto, unfolding(crate::specs::Looks::seven_look))]
fn seven_look(word: &[u8]) -> Look
    ensures { result ≡ spec.seven_look word.now }
{
    if word == b"supply0".as_slice() {
        Look::Supply0
    } else if word == b"supply1".as_slice() {
        Look::Supply1
    } else if word == b"specify".as_slice() {
        Look::Specify
    } else if word == b"initial".as_slice() {
        Look::Initial
    } else {
        Look::Name
    }
}

#[tactic(auto, unfolding(crate::specs::Looks::long_look))]
fn long_look(word: &[u8]) -> Look
    ensures { result ≡ spec.long_look word.now }
{
    if word == b"endtable".as_slice() {
        Look::EndTable
    } else if word == b"endmodule".as_slice() {
        Look::EndModule
    } else if word == b"primitive".as_slice() {
        Look::Primitive
    } else if word == b"endspecify".as_slice() {
        Look::EndSpecify
    } else if word == b"endprimitive".as_slice() {
        Look::EndPrimitive
    } else {
        Look::Name
    }
}

// The longer words, by their lengths.
#[tactic(auto, unfolding(crate::specs::Looks::longer_look))]
fn longer_look(word: &[u8]) -> Look
    ensures { result ≡ spec.longer_look word.now }
{
    let length = word.len();
    if length == 6 {
        six_look(word)
    } else if length == 7 {
        seven_look(word)
    } else {
        long_look(word)
    }
}

// The word of an identifier, by its length.
#[tactic(auto, unfolding(crate::specs::Looks::identifier_look))]
fn identifier_look(word: &[u8]) -> Look
    ensures { result ≡ spec.identifier_look word.now }
{
    let length = word.len();
    if length == 2 {
        if word == b"or".as_slice() {
            Look::Gate
        } else {
            Look::Name
        }
    } else if length == 3 {
        three_look(word)
    } else if length == 4 {
        four_look(word)
    } else if length == 5 {
        five_look(word)
    } else {
        longer_look(word)
    }
}

#[tactic(auto, unfolding(crate::specs::Looks::number_look))]
fn number_look(word: &[u8]) -> Look
    ensures { result ≡ spec.number_look word.now }
{
    if word == b"1'b0".as_slice() || word == b"1'B0".as_slice() {
        Look::Zero
    } else if word == b"1'b1".as_slice() || word == b"1'B1".as_slice() {
        Look::One
    } else {
        Look::Number
    }
}

#[tactic(auto, unfolding(text_scan::specs::Bytes::is_digit))]
fn is_digit(byte: u8) -> bool
    ensures { result ≡ spec.is_number_byte byte }
{
    b'0' <= byte && byte <= b'9'
}

#[tactic(auto, unfolding(crate::specs::Looks::word_look))]
fn word_look(word: &[u8]) -> Look
    ensures { result ≡ spec.word_look word.now }
{
    match word {
        [] => Look::Number,
        [byte, ..] => {
            if *byte == b'\\' {
                Look::Name
            } else if is_digit(*byte) {
                number_look(word)
            } else {
                identifier_look(word)
            }
        }
    }
}

fn sign_of(sign: &[u8]) -> Look
    ensures { result ≡ spec.sign_of sign.now }
{
    match sign {
        [] => Look::Barred,
        [byte, ..] => sign_look(*byte),
    }
}

fn kind_look(kind: Kind, shown: &[u8]) -> Look
    ensures { result ≡ spec.kind_look kind shown.now }
{
    match kind {
        Kind::Word => word_look(shown),
        Kind::Str => Look::Other,
        Kind::Sign => sign_of(shown),
        Kind::Unfinished => Look::Barred,
        Kind::LineEnd => Look::Barred,
        Kind::End => Look::End,
    }
}

fn macro_look(kind: Kind) -> Look
    ensures { result ≡ spec.macro_look kind }
{
    match kind {
        Kind::End => Look::Barred,
        _ => Look::Macro,
    }
}

/// What the item is for the grammar.
#[tactic(auto, unfolding(crate::specs::Looks::look_of))]
pub fn look_of(source: &[u8], item: &Left) -> Look
    ensures { result ≡ spec.look_of source.now item.now }
{
    match item.role {
        Role::Plain => kind_look(item.token.kind, text(source, item.token)),
        Role::Macro => macro_look(item.token.kind),
        Role::Misplaced => Look::Barred,
        Role::TooDeep => Look::Barred,
        Role::LongName => Look::Barred,
    }
}
