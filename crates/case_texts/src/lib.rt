//! The texts of files of cases. Texts are parted by `%`, and a line `@N LINE` stands for N such lines.
#![tactic(auto)]

use std::alloc::{AllocError, Global};

/// How often a line stands, and the line.
fn repeated(line: &[u8]) -> (u32, &[u8]) {
    let Some(counted) = line.strip_prefix(b"@") else {
        return (1, line);
    };
    let Some(place) = counted.iter().position(|byte| *byte == b' ') else {
        return (1, line);
    };
    match str::from_utf8(&counted[..place]).map(|number| number.parse::<u32>()) {
        Ok(Ok(times)) => (times, &counted[place + 1..]),
        _ => (1, line),
    }
}

/// The text with its repeated lines.
pub fn spread(alloc: Global, text: &[u8]) -> Result<Vec<u8>, AllocError> {
    let mut lines = Vec::new(alloc);
    for line in text.split(|byte| *byte == b'\n') {
        let (times, line) = repeated(line);
        for _ in 0..times {
            lines.extend_from_slice(line)?;
            lines.push(b'\n')?;
        }
    }
    lines.pop();
    Ok(lines)
}
