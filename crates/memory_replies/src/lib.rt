//! A theorem: a stack of memories has one reply to each call.
#![tactic(auto)]

ghost use Rattle.memory.specs.Flat.{flat_means};
ghost use Rattle.memory.specs.Runs.{Replays};
ghost use Rattle.wait_states.specs.WaitStates.{wait_means};
ghost use Rattle.write_buffer.specs.WriteBuffer.{buffer_means};

use memory::{Memory, flat_replies_follow_calls};
use wait_states::wait_states_replies_follow_calls;
use write_buffer::write_buffer_replies_follow_calls;

/// What a flat memory replies follows from the calls that it was made, and so it is of a layer, if it is so of the memory below.
/// There is no code; the three functions that it calls have the proofs.
pub fn replies_follow_calls<M: Memory>()
    ensures flat { Replays flat_means }
    ensures wait_states { Replays M.Memory.means → Replays (wait_means M.Memory.means) }
    ensures write_buffer { Replays M.Memory.means → Replays (buffer_means M.Memory.means) }
{
    flat_replies_follow_calls();
    wait_states_replies_follow_calls::<M>();
    write_buffer_replies_follow_calls::<M>();
}
