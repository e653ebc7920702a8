//! What is told of runs that reach the limit, and of images that cannot be.
use crate::images::replay_all;
use std::test::Fail;

/// What is told of the two pipelines where both reach it.
const PIPELINES: &str =
    "\npipeline, never, flat: limit reached\npipeline, gshare, write buffer: limit reached\n";

#[test]
fn a_run_without_an_end_reaches_the_limit(rt: HostRuntime) -> Result<(), Fail> {
    // jal x0,0
    let text = replay_all(rt.alloc(), "image loop 0 10\n0 6f\nrun\n")?;
    assert!(rt; text.contains("\nlimit reached retired 4194304 digest "));
    assert!(rt; text.ends_with(PIPELINES));
    Ok(())
}

#[test]
fn a_pipeline_may_reach_the_limit_alone(rt: HostRuntime) -> Result<(), Fail> {
    // lui x1,180; addi x1,x1,-1; bne x1,x0,-4; ecall
    let lines = "image count 0 10\n0 1800b7 fff08093 fe009ee3 73\nrun\n";
    let text = replay_all(rt.alloc(), lines)?;
    assert!(rt; text.contains("\nstop 11 c retired 3145729 digest "));
    assert!(rt; !text.contains("\nlimit reached"));
    assert!(rt; text.ends_with(PIPELINES));
    Ok(())
}

#[test]
fn an_image_has_a_size_and_a_start_within(rt: HostRuntime) -> Result<(), Fail> {
    for line in [
        "image odd 2 10",
        "image behind 10 10",
        "image nothing 0 0",
        "image uneven 0 18",
        "image large 0 10010",
        "image huge 0 ffffffff",
    ] {
        let text = replay_all(rt.alloc(), line)?;
        let told = format!(in rt.alloc(); "no image: {line}\n")?;
        assert_eq!(rt; text, told);
    }
    let text = replay_all(rt.alloc(), "image largest fffc 10000\nimage least 0 10\n")?;
    assert!(rt; text.is_empty());
    Ok(())
}
