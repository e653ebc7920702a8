//! The ends of an answer and of a refusal.
use crate::{Stream, ending_of};
use base::refusal::Refusal;
use std::test::Fail;

#[test]
fn an_answer_is_printed(rt: HostRuntime) -> Result<(), Fail> {
    let heap = rt.alloc();
    let ending = ending_of(Ok(String::from_str(heap, "limit\n")?), 1)?;
    assert_eq!(rt; format!(in heap; "{}", ending.message)?.as_str(), "limit\n");
    assert_eq!(rt; ending.stream, Stream::Output);
    assert_eq!(rt; ending.status, 0);
    let ending = ending_of(Err(Refusal::LogFull.into()), 1)?;
    assert_eq!(rt;
        format!(in heap; "{}", ending.message)?.as_str(),
        "refused 6\n"
    );
    assert_eq!(rt; ending.stream, Stream::Output);
    assert_eq!(rt; ending.status, 1);
    Ok(())
}
