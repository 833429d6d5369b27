//! What the commands answer that look at a text: schedules, manifests, scenarios, clusters.
//!
//! Here belongs what is printed and said for one request, as a function of the request and of what
//! was read. Reading, writing and the commands that run a world belong to the crate above, which
//! rests on the one clause of each `.._answer`: the answer is that of the rules for these words and
//! this text. `next_text` is public for those who have a schedule and a zone, and no words.
#![tactic(auto)]

mod advice;
mod answer;
mod as_json;
mod bare;
mod clock_words;
mod clocked;
mod clusters;
mod coming;
mod describe;
mod events;
mod given;
mod hints;
mod inputs;
mod items;
mod json;
mod json_texts;
mod lines;
mod marking;
mod moments;
mod nearest;
mod next;
mod next_lines;
mod previous;
mod previous_times;
mod relative;
mod shapes;
mod spans;
mod suggestion;
mod yaml_words;
mod zone_moments;
mod zone_names;
mod zoning;

pub use advice::{all_dropped_words, manifest_advice};
pub use answer::{Answer, Ending};
pub use as_json::{is_form, is_json, is_yaml, refused_form, value_line, yaml_text};
pub use bare::is_bare_object;
pub use clocked::{text_by_clock, time_by_clock};
pub use clusters::{ending_by, is_read, item_prefix, note_lines, note_words, refused_list};
pub use coming::schedule_advice;
pub use describe::describe_answer;
pub use given::{given_for, given_zones, refused_pair};
pub use inputs::{JsonInput, json_input};
pub use json::json_words;
pub use lines::{print_fault, print_faults, print_ok, print_warnings};
pub use marking::marked;
pub use moments::{asked_moment, is_moment, moment_of, refused_now};
pub use next::next_answer;
pub use next_lines::next_text;
pub use previous::previous_answer;
pub use relative::by_clock;
pub use shapes::shape_words;
pub use spans::read_span;
pub use zone_moments::{ZonedMoment, moment_in};
pub use zone_names::nearest_zone;
pub use zoning::zones_for;
