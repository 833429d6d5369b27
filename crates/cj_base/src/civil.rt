/// The wall-clock time in a zone, truncated to the minute, on the Gregorian calendar.
///
/// Plain data: its type keeps no range of its numbers.
#[derive(Clone, Copy, Debug, PartialEq, Eq)]
pub struct Civil {
    /// The year of ISO 8601, from -9999 to 9999.
    pub year: i16,
    /// 1 for January to 12 for December.
    pub month: u8,
    /// The day of the month, from 1.
    pub day: u8,
    /// 0 for Sunday to 6 for Saturday.
    pub weekday: u8,
    /// 0 to 23.
    pub hour: u8,
    /// 0 to 59.
    pub minute: u8,
}
