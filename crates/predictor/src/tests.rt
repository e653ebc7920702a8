//! Short histories of branches, worked out by hand.
use crate::Predictor;
use crate::backward::Backward;
use crate::bimodal::Bimodal;
use crate::gshare::Gshare;
use crate::never::Never;
use crate::tournament::Tournament;
use base::branch::Outcome;
use std::process::Abort;

/// Taken.
const T: bool = true;

/// Not taken.
const N: bool = false;

/// The outcome of the branch at `address`, back to 0x10.
fn back(address: u32, taken: bool) -> Outcome {
    Outcome {
        address,
        target: 0x10,
        taken,
    }
}

/// Guesses the branch at 0x20, back to 0x10, as listed, where each guess is followed by its outcome.
fn guesses<P: Predictor>(rt: &impl Abort, predictor: &mut P, expected: &[(bool, bool)]) {
    for (guess, taken) in expected {
        assert_eq!(rt; predictor.guess(0x20, 0x10), *guess);
        predictor.update(back(0x20, *taken));
    }
}

#[test]
fn fixed_predictors(rt: HostRuntime) {
    guesses(&rt, &mut Never, &[(N, T), (N, T)]);
    guesses(&rt, &mut Backward, &[(T, N), (T, N)]);
    assert_eq!(rt; Backward.guess(0x20, 0x20), T);
    assert_eq!(rt; Backward.guess(0x20, 0x24), N);
    // the highest address lies ahead of 0, and not just before it
    assert_eq!(rt; Backward.guess(0, 0xffff_fffc), N);
}

/// Up to the end of the range and down to the other: 1 2 3 3, 2 1 0 0.
#[test]
fn bimodal_stays_within_the_range(rt: HostRuntime) {
    let mut bimodal = Bimodal::new();
    for value in [2, 3, 3] {
        bimodal.update(back(0x20, T));
        assert_eq!(rt; bimodal.counter(0x20).value, value);
    }
    for value in [2, 1, 0, 0] {
        bimodal.update(back(0x20, N));
        assert_eq!(rt; bimodal.counter(0x20).value, value);
    }
}

/// A loop of three rounds, T T N, twice: the counter is 1 2 3, and then 2 3 3.
#[test]
fn bimodal_is_wrong_at_the_end_of_a_loop(rt: HostRuntime) {
    let mut bimodal = Bimodal::new();
    guesses(&rt, &mut bimodal, &[(N, T), (T, T), (T, N)]);
    guesses(&rt, &mut bimodal, &[(T, T), (T, T), (T, N)]);
}

/// 0x20 and 0x420 lie 256 words apart, so that both have counter 8; 0x24 has counter 9.
#[test]
fn two_branches_share_a_counter(rt: HostRuntime) {
    let mut bimodal = Bimodal::new();
    bimodal.update(back(0x20, T));
    bimodal.update(back(0x420, T));
    assert_eq!(rt; bimodal.counter(0x20).value, 3);
    assert_eq!(rt; bimodal.counter(0x24).value, 1);
    assert_eq!(rt; bimodal.guess(0x420, 0x10), T);
    assert_eq!(rt; bimodal.guess(0x24, 0x10), N);
}

/// The loop T T N, over and over. Until the history is full each outcome meets a counter of its own, which is 1: the
/// branch is word 8, and the histories 0, 1, 11, 110, .. in binary give the counters 8, 9, 11, 14, 5, 19, 62, 101, 211,
/// 190. From then on the histories 01101101, 11011011 and 10110110 take turns, with the counters 101, 211 and 190. Each
/// of these has seen one kind of outcome only, so that every guess is right.
#[test]
fn gshare_learns_when_a_loop_ends(rt: HostRuntime) {
    let mut gshare = Gshare::new();
    guesses(&rt, &mut gshare, &[(N, T), (N, T), (N, N)]);
    guesses(&rt, &mut gshare, &[(N, T), (N, T), (N, N)]);
    guesses(&rt, &mut gshare, &[(N, T), (N, T), (N, N)]);
    assert_eq!(rt; gshare.history(), 0b1011_0110);
    guesses(&rt, &mut gshare, &[(N, T), (T, T), (N, N)]);
    assert_eq!(rt; gshare.counter(0x20).value, 2);
    guesses(&rt, &mut gshare, &[(T, T), (T, T), (N, N)]);
    assert_eq!(rt; gshare.counter(0x20).value, 3);
}

/// The loop T T N, by bimodal and gshare. Bimodal's counter is 1 2 3, then 2 3 3 for ever: its first guess is N, and all
/// others are T. Gshare guesses N ten times, and is right from then on. Where they differ, the choosing counter goes down
/// at a T and up at an N: it is 1 1 0, 1 0 0, 1 0 0, 1 0 0, 1 1 1, and then 2. So the sixth loop is the first whose end
/// is guessed by gshare.
#[test]
fn tournament_goes_over_to_the_second(rt: HostRuntime) {
    let mut tournament = Tournament::new(Bimodal::new(), Gshare::new());
    guesses(&rt, &mut tournament, &[(N, T), (T, T), (T, N)]);
    for _ in 0..4 {
        guesses(&rt, &mut tournament, &[(T, T), (T, T), (T, N)]);
    }
    assert_eq!(rt; tournament.chooser(0x20).value, 2);
    guesses(&rt, &mut tournament, &[(T, T), (T, T), (N, N)]);
    assert_eq!(rt; tournament.chooser(0x20).value, 3);
    assert_eq!(rt; tournament.chooser(0x24).value, 1);
}

/// N T T T, by never and a tournament of backward and bimodal. Bimodal's counter is 1 0 1 2, so it guesses N N N T.
/// The inner choosing counter is 1 2 1 0, so the inner guesses are T N T T: backward's but for the second.
/// The outer choosing counter is 1 0 0 1, and then 2: never's guess is taken four times, and then the inner one.
#[test]
fn tournaments_stand_in_tournaments(rt: HostRuntime) {
    let mut tournament = Tournament::new(Never, Tournament::new(Backward, Bimodal::new()));
    guesses(&rt, &mut tournament, &[(N, N), (N, T), (N, T), (N, T)]);
    assert_eq!(rt; tournament.chooser(0x20).value, 2);
    guesses(&rt, &mut tournament, &[(T, T)]);
}
