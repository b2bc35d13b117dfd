//! How far the bytes at the front of a text go on.
ghost use Rattle.std.specs.Prelude.{◌≡◌, ◌≤◌, ◌+◌, length};
ghost use Rattle.text_scan.specs.Bytes.{until, begins_with, begins_with_pair, is_blank, is_identifier_byte, is_number_byte};
ghost use Rattle.text_scan.specs.Pieces.{ends_liberty_word, ends_run, begins_space};

use crate::bytes;
use memchr::memchr;

/// The place of the first such byte, or else the length.
pub fn until_byte(byte: u8, text: &[u8]) -> usize
    ensures value { result ≡ until (begins_with byte) text.now }
    ensures within { result ≤ length text.now }
{
    match memchr(byte, text) {
        Some(n) => n,
        None => text.len(),
    }
}

pub(crate) fn until_comment_end(text: &[u8]) -> usize
    ensures value { result ≡ until (begins_with_pair 42 47) text.now }
    ensures within { result ≤ length text.now }
{
    let mut at = 0;
    while let Some(n) = memchr(b'*', &text[at..]) {
        let star = at + n;
        if bytes::begins_with_pair(b'*', b'/', &text[star..]) {
            return star;
        }
        at = star + 1;
    }
    text.len()
}

pub(crate) fn until_space(text: &[u8]) -> usize
    ensures value { result ≡ until begins_space text.now }
    ensures within { result ≤ length text.now }
{
    for i in 0..text.len() {
        if bytes::begins_space(&text[i..]) {
            return i;
        }
    }
    text.len()
}

/// How many letters, digits and `$` the text begins with.
pub fn until_identifier_end(text: &[u8]) -> usize
    ensures value { result ≡ until (ends_run is_identifier_byte) text.now }
    ensures within { result ≤ length text.now }
{
    for i in 0..text.len() {
        if bytes::ends_identifier(&text[i..]) {
            return i;
        }
    }
    text.len()
}

/// How many letters, digits, `.` and `'` the text begins with.
pub fn until_number_end(text: &[u8]) -> usize
    ensures value { result ≡ until (ends_run is_number_byte) text.now }
    ensures within { result ≤ length text.now }
{
    for i in 0..text.len() {
        if bytes::ends_number(&text[i..]) {
            return i;
        }
    }
    text.len()
}

pub(crate) fn until_liberty_word_end(text: &[u8]) -> usize
    ensures value { result ≡ until ends_liberty_word text.now }
    ensures within { result ≤ length text.now }
{
    for i in 0..text.len() {
        if bytes::ends_liberty_word(&text[i..]) {
            return i;
        }
    }
    text.len()
}

pub(crate) fn until_blanks_end(text: &[u8]) -> usize
    ensures value { result ≡ until (ends_run is_blank) text.now }
    ensures within { result ≤ length text.now }
{
    for i in 0..text.len() {
        if bytes::ends_blanks(&text[i..]) {
            return i;
        }
    }
    text.len()
}
