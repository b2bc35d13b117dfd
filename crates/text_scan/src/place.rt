//! Going on in a text.
ghost use Rattle.std.specs.Prelude.{◌≡◌, ◌≤◌, ◌<◌, ◌+◌, ◌^◌, length};
ghost use Rattle.text_scan.specs.Tokens.{after, over, start};
ghost use Rattle.text_scan.specs.Jumps.{forward, line_after};

use crate::search::until_byte;
use crate::token::Place;

// Lines and columns count from 1.
const FIRST_COLUMN: u32 = 1;

impl Place {
    pub(crate) fn start() -> Place
        ensures { result ≡ start }
    {
        Place {
            at: 0,
            line: 1,
            column: FIRST_COLUMN,
        }
    }

    // The place so many bytes further on the same line.
    pub(crate) fn forward(self, n: usize) -> Place
        requires { self.at + n < 2 ^ 64 }
        ensures { result ≡ forward n self }
    {
        let columns = u32::try_from(n).unwrap_or(u32::MAX);
        Place {
            at: self.at + n,
            line: self.line,
            column: self.column.saturating_add(columns),
        }
    }

    // The place so many bytes further, after a line's end.
    fn line_after(self, n: usize) -> Place
        requires { self.at + n < 2 ^ 64 }
        ensures { result ≡ line_after n self }
    {
        Place {
            at: self.at + n,
            line: self.line.saturating_add(1),
            column: FIRST_COLUMN,
        }
    }

    // The place after these bytes, and how many lines end in them.
    #[tactic(auto, using(crate::proofs::Places::after_flat_part, crate::proofs::Places::after_line_part, crate::proofs::Places::after_none, crate::proofs::Places::length_part))]
    fn after_lines(self, bytes: &[u8]) -> Place
        requires { self.at + length bytes.now < 2 ^ 64 }
        ensures { result ≡ after self bytes.now }
    {
        let mut place = self;
        let mut done = 0;
        while done < bytes.len() {
            let n = until_byte(b'\n', &bytes[done..]);
            if done + n == bytes.len() {
                return place.forward(n);
            }
            place = place.line_after(n + 1);
            done += n + 1;
        }
        place
    }

    #[tactic(auto, unfolding(crate::specs::Tokens::over))]
    fn over(self, byte: u8) -> Place
        requires { self.at + 1 < 2 ^ 64 }
        ensures { result ≡ over byte self }
    {
        if byte == b'\n' {
            self.line_after(1)
        } else {
            self.forward(1)
        }
    }

    #[tactic(auto, using(crate::proofs::Places::after_one))]
    fn after_bytes(self, bytes: &[u8]) -> Place
        requires { self.at + length bytes.now < 2 ^ 64 }
        ensures { result ≡ after self bytes.now }
    {
        if bytes.len() == 1 {
            self.over(bytes[0])
        } else {
            self.after_lines(bytes)
        }
    }

    // The place after these bytes.
    #[tactic(auto, using(crate::proofs::Places::after_at))]
    pub(crate) fn after(self, bytes: &[u8]) -> Place
        requires { self.at + length bytes.now < 2 ^ 64 }
        ensures value { result ≡ after self bytes.now }
        ensures at { result.at ≡ self.at + length bytes.now }
    {
        self.after_bytes(bytes)
    }
}
