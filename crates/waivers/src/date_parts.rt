//! The parts of a date's text.

/// The numbers that a text as `YYYY-MM-DD` names, whether or not the calendar has such a date.
#[derive(Clone, Copy, Debug)]
pub struct DateParts {
    pub year: u16,
    pub month: u8,
    pub day: u8,
}
