//! A stack of memories that is chosen at run time.
ghost use Rattle.std.specs.Prelude.{[], ◌∷◌};
ghost use Rattle.dispatch.specs.Stacks.{Answered, StackAnswered, layers};

use crate::layer::{Layer, add};
use base::refusal::Refusal;
use memory::Flat;
use setup::choice::{LayerChoice, StackChoice};

/// A flat memory with up to three layers over it. Each depth has a type of its own, so that who
/// runs over the stack asks its depth once, and not in each clock.
#[derive(Drop)]
pub enum Stack {
    Flat(Flat),
    One(Layer<Flat>),
    Two(Layer<Layer<Flat>>),
    Three(Layer<Layer<Layer<Flat>>>),
}

/// A flat memory of these bytes, if it passes its check.
fn flat(bytes: Vec<u8>) -> Result<Flat, Refusal>
    ensures { Answered bytes [] 0 result }
{
    Flat::check(bytes.len())?;
    Ok(Flat::new(bytes))
}

/// One layer over a flat memory of these bytes.
#[tactic(auto, using(crate::proofs::Stacking::unfit_above))]
fn one(bytes: Vec<u8>, layer: LayerChoice) -> Result<Layer<Flat>, Refusal>
    ensures { Answered bytes (layer ∷ []) 1 result }
{
    add(flat(bytes)?, layer)
}

/// Two layers over a flat memory of these bytes.
#[tactic(auto, using(crate::proofs::Stacking::unfit_above))]
fn two(
    bytes: Vec<u8>,
    lower: LayerChoice,
    upper: LayerChoice,
) -> Result<Layer<Layer<Flat>>, Refusal>
    ensures { Answered bytes (upper ∷ lower ∷ []) 2 result }
{
    add(one(bytes, lower)?, upper)
}

/// Three layers over a flat memory of these bytes.
#[tactic(auto, using(crate::proofs::Stacking::unfit_above))]
fn three(
    bytes: Vec<u8>,
    bottom: LayerChoice,
    middle: LayerChoice,
    top: LayerChoice,
) -> Result<Layer<Layer<Layer<Flat>>>, Refusal>
    ensures { Answered bytes (top ∷ middle ∷ bottom ∷ []) 3 result }
{
    add(two(bytes, bottom, middle)?, top)
}

/// The chosen stack over a flat memory of these bytes. Refuses, from the bottom up, what does not
/// pass its check.
pub fn build(bytes: Vec<u8>, choice: StackChoice) -> Result<Stack, Refusal>
    ensures { StackAnswered bytes (layers choice) result }
{
    match (choice.bottom, choice.middle, choice.top) {
        (None, None, None) => Ok(Stack::Flat(flat(bytes)?)),
        (Some(layer), None, None) | (None, Some(layer), None) | (None, None, Some(layer)) => {
            Ok(Stack::One(one(bytes, layer)?))
        }
        (Some(lower), Some(upper), None)
        | (Some(lower), None, Some(upper))
        | (None, Some(lower), Some(upper)) => Ok(Stack::Two(two(bytes, lower, upper)?)),
        (Some(bottom), Some(middle), Some(top)) => {
            Ok(Stack::Three(three(bytes, bottom, middle, top)?))
        }
    }
}
