// Zones that words and folders give: their names in an input, the files that may be looked up, a
// table of both.
mod file;
mod file_name;
mod given;
mod name_list;
mod named;
mod pair;
mod pruned;
mod refused;
mod table;

pub use file::{FileBytes, ZoneFile};
pub use file_name::{file_names_law, is_file_name};
pub use given::GivenZones;
pub use name_list::ZoneNames;
pub use named::zones_named;
pub use refused::Refused;
pub use table::{add_files, table_with};
