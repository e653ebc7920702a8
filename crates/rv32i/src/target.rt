//! Where an instruction may lead, as far as its word tells: what a fetch can know of it.

/// Where an instruction may lead.
#[derive(Clone, Copy, PartialEq, Eq, Debug)]
pub enum Target {
    /// To the next instruction, or to what only its execution tells.
    Next,
    /// There if the branch is taken.
    Branch(u32),
    /// There.
    Jump(u32),
}
