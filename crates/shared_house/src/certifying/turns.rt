//! The calls of all passes, in the order of their points.

ghost use Rattle.std.specs.Prelude.{◌≡◌, ◌++◌, map, IfOk, OnOk};
ghost use Rattle.std.specs.Ordering.{nat_cmp};
ghost use Rattle.shared_house.specs.Inner.Turns.{AreTurns, plain_turn, rank, turns_from, turns_of};

use super::turn::Turn;
use crate::call::Call;
use plain_house::is_out_of_memory;
use std::alloc::{AllocError, Global};
use std::cmp::Ordering;

fn in_order(first: &Turn, second: &Turn) -> Ordering
    ensures { result ≡ nat_cmp (rank (plain_turn first.now)) (rank (plain_turn second.now)) }
{
    first.rank().cmp(&second.rank())
}

// The calls of one pass, behind the turns that are there.
fn add_turns<'a>(turns: &mut Vec<Turn<'a>>, calls: &'a [Call]) -> Result<(), AllocError>
    ensures { OnOk result (map plain_turn turns.new.items ≡ map plain_turn turns.old.items ++ turns_from 0 calls.now) }
{
    let mut front = 0;
    for call in calls {
        if !is_out_of_memory(&call.reply) {
            turns.push(Turn::new(front, call))?;
            front = call.seen();
        }
    }
    Ok(())
}

fn turns<'a>(alloc: Global, passes: &'a [Vec<Call>]) -> Result<Vec<Turn<'a>>, AllocError>
    ensures { IfOk result (λ turns. map plain_turn turns.items ≡ turns_of (map (λ calls. calls.items) passes.now)) }
{
    let mut turns = Vec::new(alloc);
    for calls in passes {
        add_turns(&mut turns, calls.as_slice())?;
    }
    Ok(turns)
}

/// The calls of all passes that found memory, by their points, and of one point those first that add no event.
pub fn turns_in_order<'a>(
    alloc: Global,
    passes: &'a [Vec<Call>],
) -> Result<Vec<Turn<'a>>, AllocError>
    ensures { IfOk result (λ turns. AreTurns (map (λ calls. calls.items) passes.now) (map plain_turn turns.items)) }
{
    let mut turns = turns(alloc, passes)?;
    turns.sort_by(|first, second| in_order(first, second))?;
    Ok(turns)
}
