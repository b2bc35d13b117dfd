use text_scan::Text;
use verdict_text::Code;

/// A house's consent to live with a finding up to a day.
#[derive(Debug, Drop)]
pub struct Waiver {
    /// The cell's name, or `*` for every cell.
    pub cell: Text,
    pub code: Code,
    /// The pin's name, `*` for every pin and for none, or `-` for findings without a pin.
    pub pin: Text,
    /// The number of the last day on which it covers; that of 1970-01-01 is 0.
    pub last: i32,
    /// Why it is given.
    pub reason: Text,
}
