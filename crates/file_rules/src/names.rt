//! Which texts are names.
ghost use Rattle.std.specs.Prelude.{◌≡◌};
ghost use Rattle.file_rules.specs.Names as spec;

use text_scan::Limits;

#[tactic(auto, unfolding(crate::specs::Names::is_no_name_byte))]
fn is_no_name_byte(byte: u8) -> bool
    ensures { result ≡ spec.is_no_name_byte byte }
{
    matches!(
        byte,
        b'(' | b')' | b'{' | b'}' | b';' | b',' | b'"' | b'=' | b'\'' | b'\\'
    )
}

#[tactic(auto, unfolding(crate::specs::Names::is_name_byte))]
fn is_name_byte(byte: u8) -> bool
    ensures { result ≡ spec.is_name_byte byte }
{
    33 <= byte && byte <= 126 && !is_no_name_byte(byte)
}

#[tactic(auto, unfolding(crate::specs::Names::is_mark))]
fn is_mark(bytes: &[u8]) -> bool
    ensures { result ≡ spec.is_mark bytes.now }
{
    bytes == b"-".as_slice() || bytes == b"*".as_slice()
}

fn has_name_bytes(bytes: &[u8]) -> bool
    ensures { result ≡ spec.has_name_bytes bytes.now }
{
    bytes.iter().all(|byte| is_name_byte(*byte))
}

/// Whether the bytes are a name, of whatever length.
#[tactic(auto, unfolding(crate::specs::Names::is_name))]
pub fn is_name(bytes: &[u8]) -> bool
    ensures { result ≡ spec.is_name bytes.now }
{
    0 < bytes.len() && has_name_bytes(bytes) && !is_mark(bytes)
}

/// Whether the name has more bytes than the limits allow.
pub fn is_too_long(limits: &Limits, name: &[u8]) -> bool
    ensures { result ≡ spec.is_too_long limits.now name.now }
{
    (limits.name as usize) < name.len()
}
