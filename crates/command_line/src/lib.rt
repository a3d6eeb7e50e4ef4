//! What commands share: the words of the command line and the options among them, the files that these name, the streams, what ends a
//! command early with the line that tells it, the text of a value that is not as expected, and where a text stops being JSON.
#![tactic(auto)]

mod arguments;
mod fault;
mod files;
mod found_text;
mod json_stop;
mod progress;
mod streams;
mod telling;
mod words;

pub use arguments::{Arguments, CommandOption};
pub use fault::Fault;
pub use files::{file_path, open_file, open_given, read_config, read_file_start, read_start};
pub use found_text::text_of_found;
pub use json_stop::find_json_stop;
pub use progress::{Progress, Watched, Work};
pub use streams::{Errors, Input, Output};
pub use telling::{tell, tell_as, tell_of_file, tell_unread_file};
pub use words::given_words;
