// Windows and schedules as JSON.
mod changes;
mod coming;
mod minutes;
mod standings;

pub use changes::zone_changes_value;
pub use coming::{coming_changes, coming_times, coming_value};
pub use minutes::{peaks_value, starts_value};
pub use standings::standing_values;
