//! Why a CronJob starts a Job at a moment, or why not, in words for people.
//!
//! Here belongs the wording of the times missed, of the Jobs that run and of the policy, and
//! (`reviews`) what each CronJob of a cluster missed, with the plan of its next sync. The decision
//! itself belongs to `cj_decide`. The commands rest on `why`, `review` and `plan_text`.
#![tactic(auto)]

mod missed;
mod reviews;
mod running;
mod since;
mod start;

pub use reviews::{
    CronRow, Reviewed, Verdict, cron_rows, cron_values, found, is_problem, listed, plan_of,
    plan_text, plan_value, problems, review, table_text, zone_copy, zone_of,
};
pub use start::why;
