//! Counts over the clocks made.
ghost use Rattle.std.specs.Prelude.{◌≤◌};

/// How many clocks were made, and how many instructions were fetched, retired and dropped. At most one is fetched and one
/// retires in a clock; that the dropped ones never wrap follows from the balance that every clock keeps.
#[derive(Clone, Copy)]
pub struct Counts {
    pub clocks: u32,
    pub fetched: u32,
    pub retired: u32,
    pub dropped: u32,
    ghost ok: { (fetched ≤ clocks) × (retired ≤ clocks) },
}
