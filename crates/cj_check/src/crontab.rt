// What `crontab` answers: each line of a crontab in a sentence, where a CronJob would do otherwise,
// and the manifests of its CronJobs.
mod answer;
mod as_json;
mod clock;
mod command;
mod day_rule;
mod entries;
mod environment;
mod fault;
mod line;
mod lines;
mod manifest;
mod names;
mod notes;
mod pieces;
mod setting;
mod shell;
mod sunday;
mod told;
mod when;
mod yaml;
mod zones;

pub use answer::crontab_answer;
pub use zones::crontab_zones;
