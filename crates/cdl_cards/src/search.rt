//! How far the bytes at the front of a text go on.
ghost use Rattle.std.specs.Prelude.{◌≡◌, ◌≤◌, length};
ghost use Rattle.text_scan.specs.Bytes as bytes;
ghost use Rattle.text_scan.specs.Pieces as pieces;

use memchr::memchr;

#[tactic(auto, unfolding(text_scan::specs::Bytes::is_space))]
pub(crate) fn is_space(byte: u8) -> bool
    ensures { result ≡ bytes.is_space byte }
{
    byte == b' ' || byte == b'\t' || byte == b'\r' || byte == b'\n'
}

#[tactic(auto, unfolding(text_scan::specs::Pieces::begins_space))]
fn begins_space(text: &[u8]) -> bool
    ensures { result ≡ pieces.begins_space text.now }
{
    match text {
        [] => true,
        [byte, ..] => is_space(*byte),
    }
}

pub(crate) fn until_space(text: &[u8]) -> usize
    ensures value { result ≡ bytes.until pieces.begins_space text.now }
    ensures within { result ≤ length text.now }
{
    for i in 0..text.len() {
        if begins_space(&text[i..]) {
            return i;
        }
    }
    text.len()
}

#[tactic(auto, unfolding(text_scan::specs::Pieces::ends_run))]
fn begins_word(text: &[u8]) -> bool
    ensures { result ≡ pieces.ends_run bytes.is_space text.now }
{
    match text {
        [] => true,
        [byte, ..] => !is_space(*byte),
    }
}

// How many blanks stand before the first word.
pub(crate) fn until_word(text: &[u8]) -> usize
    ensures value { result ≡ bytes.until (pieces.ends_run bytes.is_space) text.now }
    ensures within { result ≤ length text.now }
{
    for i in 0..text.len() {
        if begins_word(&text[i..]) {
            return i;
        }
    }
    text.len()
}

pub(crate) fn until_line_end(text: &[u8]) -> usize
    ensures value { result ≡ bytes.until (bytes.begins_with 10) text.now }
    ensures within { result ≤ length text.now }
{
    match memchr(b'\n', text) {
        Some(n) => n,
        None => text.len(),
    }
}

/// Whether the text begins with this byte.
#[tactic(auto, unfolding(text_scan::specs::Bytes::begins_with))]
pub fn begins_with(byte: u8, text: &[u8]) -> bool
    ensures { result ≡ bytes.begins_with byte text.now }
{
    match text {
        [] => false,
        [first, ..] => *first == byte,
    }
}
