//! Why a line is refused, and the texts that say so: the place, the cause in words, what was found there, what it was compared
//! with, and the number of the event that contradicts the line.
#![tactic(auto)]

mod against;
mod column_texts;
mod decimals;
mod event;
mod found;
mod house_columns;
mod json_object;
pub mod laws;
mod line_cause;
mod line_causes;
mod line_place;
mod members;
mod moment;
mod not_json;
mod own_cause;
mod reason_columns;
mod refusal_names;
mod short_text;
mod stream_causes;
mod stream_with_causes;
mod value;
mod words;

pub use against::against_in;
pub use column_texts::{ColumnTexts, columns};
pub use event::event_in;
pub use found::found_in;
pub use json_object::json_of;
pub use line_cause::LineCause;
pub use line_causes::cause_of_line;
pub use line_place::{LinePlace, place_in};
pub use refusal_names::{refused, refused_by_reply};
pub use stream_causes::cause_of_stream_line;
pub use stream_with_causes::StreamWithCauses;
pub use value::Value;
pub use words::words_of;
