//! The refused lines of a stream.

mod added;
mod explainer;
mod table;

pub use table::explain_stream;
