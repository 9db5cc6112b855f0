use lines::readings::Reading;

/// What came of a measurement.
#[derive(PartialEq, Eq, Debug, Drop)]
pub struct Report {
    /// The lines of letters that were shown, in order.
    pub shown: Vec<i32>,
    /// The result, where the wanted reversals were reached.
    pub reading: Option<Reading>,
}
