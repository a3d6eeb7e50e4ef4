//! What answers the lines of a stream.

use ocpi_types::Config;
use request_lines::Answerer;
use std::alloc::{AllocError, Global};

/// Answers the lines of a stream by a rule of the stream's state: that of `Stream`, or one whose answers have more.
pub trait LineStream: Answerer + Drop + Sized {
    ghost use Rattle.std.specs.Prelude.{◌≡◌, ℕ, List, IfOk};
    ghost use Rattle.request_lines.specs.Answering.{Rule};
    ghost use Rattle.line_streams.specs.State.{StreamState, empty_under};

    /// The state of the stream.
    ghost state: { Self → StreamState };

    /// The rule by which lines lead from state to state.
    ghost state_rule: { Rule StreamState };

    /// Returns an empty stream under a configuration.
    ///
    /// # Errors
    ///
    /// `AllocError` if an allocation fails.
    fn under(alloc: Global, config: Config) -> Result<Self, AllocError>
        ensures { IfOk result (λ it. state it ≡ empty_under config) };

    /// Returns the configuration in force.
    fn config_in_force(&self) -> &Config
        ensures { result.now ≡ (state self.now).house.config };

    ghost may_look_ahead: { Self.can_look_ahead };

    ghost answers_in_state: { (a b : Self) (lines : List (List ℕ)) (text : List ℕ) → Self.rule.answers a lines text b → state_rule.answers (state a) lines text (state b) };

    ghost gives_up_in_state: { (a b : Self) (line : List ℕ) → Self.rule.gives_up a line b → state_rule.gives_up (state a) line (state b) };
}
