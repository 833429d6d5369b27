//! What starts in a window of time, and what a schedule says.
//!
//! Here belongs which CronJobs of a list are due at which instants of a window, the minutes that
//! are the fullest, the instants at which a clock is put forward or back, and a schedule in a
//! sentence with its next times. How a cluster is read belongs to `cj_cluster`, which times are due
//! to `cj_due`. The commands rest on `upcoming`: exactly the starts of the window, in order; on the
//! texts of its lines; and on `sentence`, which is defined over the schedule's five sets.
#![tactic(auto)]

mod changes;
mod clock;
mod clocks;
mod coming;
mod cron;
mod day_words;
mod describe;
mod fault;
mod join;
mod json;
mod length;
mod lines;
mod minute;
mod minutes;
mod named;
mod note;
mod part;
mod peaks;
mod probe;
mod report;
mod runs;
mod standing;
mod standings;
mod start;
mod starts;
mod time_words;
mod times;
mod whole;
mod window;
mod zone_changes;

pub use coming::coming_text;
pub use describe::sentence;
pub use fault::StartsFault;
pub use json::{
    coming_changes, coming_times, coming_value, peaks_value, standing_values, starts_value,
    zone_changes_value,
};
pub use length::read_length;
pub use minute::Minute;
pub use minutes::minutes_of;
pub use named::named_changes_text;
pub use report::window_lines;
pub use standing::Standing;
pub use standings::standings_text;
pub use start::Start;
pub use starts::Starts;
pub use whole::upcoming;
pub use window::Window;
pub use zone_changes::zone_changes_text;
