//! The house: its locks, and the calls of its passes.

mod blanks;
mod calls;
mod closing;
mod collecting;
mod held;
mod keeping;
mod locks;
mod making;
mod named;
mod numbers;
mod replying;
mod stating;

pub use blanks::Blanks;
pub use locks::{House, Locks};
