//! A predictor that is chosen at run time.
ghost use Rattle.std.specs.Prelude.{◌≡◌};
ghost use Rattle.dispatch.specs.Predictors.{simple_table, simple_fresh, chosen_table, chosen_fresh};

use either::Either;
use predictor::backward::Backward;
use predictor::bimodal::Bimodal;
use predictor::gshare::Gshare;
use predictor::never::Never;
use predictor::tournament::Tournament;
use setup::choice::{PredictorChoice, SimpleChoice};

/// A predictor that stands alone: one that never learns, or one with a table of counters.
pub type Simple = Either<Either<Never, Backward>, Either<Bimodal, Gshare>>;

/// A predictor that stands alone, or a tournament over two of them.
pub type Chosen = Either<Simple, Tournament<Simple, Simple>>;

/// The fresh predictor of that name.
pub fn simple(choice: SimpleChoice) -> Simple
    ensures { simple_table result ≡ simple_fresh choice }
{
    match choice {
        SimpleChoice::Never => Either::Left(Either::Left(Never)),
        SimpleChoice::Backward => Either::Left(Either::Right(Backward)),
        SimpleChoice::Bimodal => Either::Right(Either::Left(Bimodal::new())),
        SimpleChoice::Gshare => Either::Right(Either::Right(Gshare::new())),
    }
}

/// The fresh predictor of that name, alone or a tournament.
pub fn chosen(choice: PredictorChoice) -> Chosen
    ensures { chosen_table result ≡ chosen_fresh choice }
{
    match choice {
        PredictorChoice::Simple(choice) => Either::Left(simple(choice)),
        PredictorChoice::Tournament(first, second) => {
            Either::Right(Tournament::new(simple(first), simple(second)))
        }
    }
}
