// What the next sync of each CronJob of a cluster does, and what it missed.
mod cron_json;
mod lacking;
mod late;
mod otherwise;
mod plan_json;
mod reviewing;
mod rows;
mod seen;
mod since;
mod steps_text;
mod table;
mod verdict;
mod words;
mod zone_for;

pub use cron_json::cron_values;
pub use plan_json::plan_value;
pub use reviewing::{Reviewed, plan_of, review};
pub use rows::{CronRow, cron_rows, problems};
pub use seen::{found, listed};
pub use steps_text::plan_text;
pub use table::table_text;
pub use verdict::{Verdict, is_problem};
pub use zone_for::{zone_copy, zone_of};
