//! Streams of lines: those of a script, lines that change the configuration, and lines with request ids, each of which is done once.
#![tactic(auto)]

mod allowed;
mod answered;
mod asked;
mod doing;
mod in_force;
mod laws;
mod line_stream;
mod once;
mod reply;
mod request_id;
mod running;
mod stream;

pub use asked::{Asked, AskedLine, Change, ChangeName, asked_of, read_asked_line};
pub use laws::{
    added_events_keep_to_their_configuration, refused_lines_do_nothing, repeats_add_nothing,
    repeats_are_answered_alike, streams_answer_every_line, streams_are_determined,
    streams_stay_legal, streams_stay_sound, unchanged_is_a_script, used_ids_tell_lines_apart,
};
pub use line_stream::LineStream;
pub use reply::{LineReply, StreamReply};
pub use request_id::RequestId;
pub use running::{run_stream, run_stream_together};
pub use stream::Stream;
