//! Lines of bytes, read from any source and answered in turn onto any sink.
#![tactic(auto)]

mod answering;
mod answers;
mod chained;
mod device;
mod faults;
mod gathering;
mod laws;
mod line_room;
mod lines;
mod members;
mod one_line;
mod progress;
mod requests;
mod script;
mod streams;
mod tables;
mod together;

pub use answering::{Answerer, MOST_READ_CALLS, run_lines};
pub use answers::answer_line;
pub use device::Device;
pub use faults::{Count, Failed, ScriptFault};
pub use laws::scripts_keep_lists_legal;
pub use line_room::LineRoom;
pub use lines::{MOST_LINE_BYTES, NEWLINE, lines_join_to_bytes, split_line};
pub use one_line::{Once, Respond, admitted, answer_to, command_of, reply_to, reply_to_command};
pub use requests::{CommandName, read_request, request_of};
pub use script::{Scripted, run_script, run_script_by, run_script_together};
pub use streams::{MOST_READ_BYTES, READ_BYTES, Sink, Source, read_buffer, read_into, write_all};
pub use together::run_lines_together;
