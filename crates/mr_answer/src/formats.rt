//! How a report is written.

/// How a report is written.
#[derive(Clone, Copy, Debug, PartialEq, Eq)]
pub enum Format {
    /// Line by line.
    Text,
    /// As one JSON object.
    Json,
    /// Line by line, with a shorter witness.
    Short,
    /// The footprints of the completed steps, as bytes.
    Footprints,
    /// Line by line; and where no race is listed, behind the schedule in an order that is drawn from a number, of the
    /// run in that order.
    Shuffled { number: u64 },
}
