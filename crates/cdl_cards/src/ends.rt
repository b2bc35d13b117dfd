//! The end of a text.
ghost use Rattle.std.specs.Prelude.{◌≡◌, ◌+◌, ◌^◌, ◌<◌};
ghost use Rattle.text_scan.specs.Tokens.{after, over, start};

use text_scan::Place;

#[tactic(auto, unfolding(text_scan::specs::Tokens::over))]
fn over(byte: u8, place: Place) -> Place
    requires { place.at + 1 < 2 ^ 64 }
    ensures { result ≡ over byte place }
{
    if byte == b'\n' {
        Place {
            line: place.line.saturating_add(1),
            at: place.at + 1,
            column: 1,
        }
    } else {
        Place {
            line: place.line,
            at: place.at + 1,
            column: place.column.saturating_add(1),
        }
    }
}

/// The place after the last byte of the text.
pub fn end_of(text: &[u8]) -> Place
    ensures { result ≡ after start text.now }
{
    let mut place = Place {
        line: 1,
        at: 0,
        column: 1,
    };
    for i in 0..text.len() {
        place = over(text[i], place);
    }
    place
}
