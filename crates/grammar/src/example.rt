//! A small reader, which shows how a reader's answer is stated and proved: a text of digits whose sum is nine at
//! most, and then a point.
ghost use Rattle.std.specs.Prelude.{◌≡◌, ◌<◌, ℕ, Result, length, drop, slice_index, false};
ghost use Rattle.grammar.specs.Reading.{Stop};
ghost use Rattle.grammar.specs.Answers.{IsAnswer, read_all};
ghost use Rattle.grammar.specs.Example.{sums, told, Excess, is_digit};

/// Why a text is no sum, with the index of the byte: the text's length where it ends too early.
#[derive(Clone, Copy, Debug, PartialEq, Eq)]
pub enum SumRefusal {
    /// The bytes so far are a front of a sum, and with this byte they are none.
    Syntax(usize),
    /// With this digit the sum is above nine.
    TooLarge(usize),
}

#[tactic(auto, unfolding(crate::specs::Example::is_digit))]
fn is_digit(byte: u8) -> bool
    ensures { result ≡ is_digit byte }
{
    b'0' <= byte && byte <= b'9'
}

// The point and the end of the text, which stand at this index.
fn ending(text: &[u8], at: usize, sum: u8) -> Result<u8, SumRefusal>
    requires within { at < length text.now }
    requires no_digit { is_digit (slice_index text.now at) ≡ false }
    ensures { read_all sums sum (drop at text.now) ≡ told text.now result }
{
    if text[at] != b'.' {
        return Err(SumRefusal::Syntax(at));
    }
    if at + 1 < text.len() {
        return Err(SumRefusal::Syntax(at + 1));
    }
    Ok(sum)
}

fn read_sum(text: &[u8]) -> Result<u8, SumRefusal>
    ensures { read_all sums 0 text.now ≡ told text.now result }
{
    let mut sum = 0;
    for at in 0..text.len() {
        let byte = text[at];
        if !is_digit(byte) {
            return ending(text, at, sum);
        }
        let more = sum + (byte - b'0');
        if more > 9 {
            return Err(SumRefusal::TooLarge(at));
        }
        sum = more;
    }
    Err(SumRefusal::Syntax(text.len()))
}

/// The sum of the digits before the point.
pub fn sum_of(text: &[u8]) -> Result<u8, SumRefusal>
    ensures answer { IsAnswer sums 0 text.now (told text.now result) }
    ensures only_answer { (o : Result ℕ (Stop ℕ Excess)) → IsAnswer sums 0 text.now o → told text.now result ≡ o }
{
    read_sum(text)
}
