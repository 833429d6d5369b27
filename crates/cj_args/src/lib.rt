//! The words of a command line: what they may be, and what they ask for.
//!
//! Here belongs each command with its options and its help, as clap takes them. The answer to a
//! request belongs to the crates above. They rest on `parse_words`: a request has the values that
//! clap states.
#![tactic(auto)]

mod arguments;
mod clocks;
mod command;
mod crontab;
mod help;
mod previous;
mod report;
mod request;
mod scenario;
mod tips;
mod word_fault;
mod words;

pub use clocks::ClockWords;
pub use command::VERSION;
pub use crontab::CrontabRequest;
pub use previous::PreviousRequest;
pub use report::ReportRequest;
pub use request::{
    AuditRequest, CheckRequest, ControlRequest, DescribeRequest, NextRequest, PlanRequest,
    ReplayRequest, Request, RunRequest, UpcomingRequest, WhyRequest, ZoneWords,
};
pub use scenario::ScenarioRequest;
pub use tips::word_tips;
pub use word_fault::WordFault;
pub use words::parse_words;
