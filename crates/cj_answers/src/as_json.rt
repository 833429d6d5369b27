// The answers as JSON.
mod describe;
mod forms;
mod next;
mod previous;

pub(crate) use describe::describe_json;
pub use forms::{is_form, is_json, is_yaml, refused_form, value_line, yaml_text};
pub(crate) use next::next_json;
pub(crate) use previous::previous_json;
