//! The print of two records.
use crate::records::EndText;
use crate::table::sequence_text;
use sequential::record::Retired;
use std::test::Fail;

#[test]
fn a_table_has_a_line_for_each(rt: HostRuntime) -> Result<(), Fail> {
    let text = sequence_text(rt.alloc(), &[Retired::EMPTY; 2], None)?;
    assert_eq!(rt;
        text.as_str(),
        "retired address word rd value\n1 0 0 - 0\n2 0 0 - 0\nlimit retired 2\n"
    );
    assert_eq!(rt; EndText(None).to_string(rt.alloc())?.as_str(), "limit");
    Ok(())
}
