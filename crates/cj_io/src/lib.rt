//! What the program reads and writes, and what it says where that fails.
//!
//! Here belongs how input is read within its limits, as a whole or line by line, how output is
//! written or begun, and (`zone_files`) which zones an input names and what words and folders give
//! of them. What is printed belongs to the crates above. They rest on `read_input`,
//! `LineReader::read_line`, `plain_length`, `write_whole` and `Pending`, on `tell_failure`, and on
//! `zones_named` and `table_with`.
#![tactic(auto)]

mod exit_status;
mod failure;
mod input;
mod pending;
mod reader;
mod taken;
mod writing;
mod zone_files;

pub use exit_status::ExitStatus;
pub use failure::Failure;
pub use input::{MOST_BYTES, MOST_READS, read_input};
pub use pending::Pending;
pub use reader::{LineReader, MOST_LINE_BYTES, plain_length};
pub use taken::{Kept, Taken};
pub use writing::{tell_failure, write_and_flush, write_whole};
pub use zone_files::{
    FileBytes, GivenZones, Refused, ZoneFile, ZoneNames, add_files, file_names_law, is_file_name,
    table_with, zones_named,
};
