//! A set-up and an image, run and reported.

mod answer;
mod assembly;
mod over;
mod running;

pub use answer::timing_of;
