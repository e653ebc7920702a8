//! The flow of a latch in a clock.

/// What a stage did with the latch before it. `RollsBack` drops what is younger.
#[derive(Clone, Copy, PartialEq, Eq, Debug)]
pub enum Flow {
    Moves,
    Stalls,
    RollsBack,
}
