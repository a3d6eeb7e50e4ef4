//! A line with its strings and numbers marked, so that a reader of JSON that knows no numbers as texts keeps them as
//! written; and the law that such a reading of the marked line is the reading of the line itself.
#![tactic(auto)]

pub mod marking;
pub mod reading;
