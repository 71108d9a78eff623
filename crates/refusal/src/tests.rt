// The table of refusals, row by row.
use crate::Refusal;
use std::test::Fail;

#[test]
fn the_table(rt: HostRuntime) -> Result<(), Fail> {
    let rows = [
        (Refusal::Order, "refusal 1 Order at 0"),
        (Refusal::Bytes(0), "refusal 2 Bytes at 0"),
        (Refusal::Bytes(12), "refusal 2 Bytes at 12"),
        (Refusal::Shape, "refusal 3 Shape at 0"),
        (Refusal::RunOn, "refusal 4 Run-on at 0"),
        (Refusal::Name(65535), "refusal 5 Name at 65535"),
        (Refusal::Stack, "refusal 6 Stack at 0"),
        (Refusal::Depth, "refusal 7 Depth at 0"),
        (Refusal::Stage, "refusal 8 Stage at 0"),
        (Refusal::Sink, "refusal 9 Sink at 0"),
        (Refusal::Style, "refusal 10 Style at 0"),
    ];
    for (refusal, line) in rows {
        let shown = refusal.to_string(rt.alloc())?;
        assert_eq!(rt; shown.as_str(), line);
    }
    Ok(())
}
