//! Counts the tokens of a Liberty file, and so many times: `token_count FILE [TIMES]`.
#![tactic(auto)]

use std::{env, fs};
use text_scan::{Cursor, Kind, Style, Token};

/// How many tokens stand before the end, and the end.
fn count(text: &[u8]) -> (u64, Token) {
    let mut cursor = Cursor::new(text, Style::Liberty);
    for tokens in 0..u64::MAX {
        let token = cursor.next_token();
        if let Kind::End = token.kind {
            return (tokens, token);
        }
    }
    (u64::MAX, cursor.next_token())
}

fn main(rt: HostRuntime) -> Result<(), anyhow::Error> {
    let mut words = env::args(&rt)?.skip(1);
    let Some(path) = words.next() else {
        println!(rt; "usage: token_count FILE [TIMES]")?;
        return Ok(());
    };
    let times = words
        .next()
        .and_then(|word| word.as_str().parse::<u32>().ok())
        .unwrap_or(1);
    let text = fs::read(&rt, path.as_str())?;
    for _ in 0..times {
        let (tokens, end) = count(&text);
        println!(rt;
            "{tokens} tokens, the end at line {} column {}",
            end.span.line, end.span.column
        )?;
    }
    Ok(())
}
