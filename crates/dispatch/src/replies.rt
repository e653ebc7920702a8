//! That a chosen memory has one reply to each call.
ghost use Rattle.std.specs.Prelude.{ℕ};
ghost use Rattle.dispatch.specs.Boxes.{boxed_means};
ghost use Rattle.dispatch.specs.Layers.{layer_means};
ghost use Rattle.dispatch.specs.Stacks.{means};
ghost use Rattle.memory.specs.Runs.{Replays};

use memory::Memory;

/// A theorem, with no code: what a layer replies follows from the calls that it was made, if it is
/// so of the memory below. So it is of a memory on the heap, if it is so elsewhere, and of a stack
/// of any depth.
pub fn replies_follow_calls<M: Memory>()
    ensures layer { Replays M.Memory.means → Replays (layer_means M.Memory.means) }
    ensures boxed { Replays M.Memory.means → Replays (boxed_means M.Memory.means) }
    ensures stack { (n : ℕ) → Replays (means n) }
{}
