// A plan that is written with a replace: the program draws none.
use plan_text::{read_plan, write_plan};
use std::test::Fail;

#[test]
fn a_plan_with_a_replace_is_written(rt: HostRuntime) -> Result<(), Fail> {
    let alloc = rt.alloc();
    let text = r#"{"scripts":[[["replace",5,1073741823,0]],[]],"version":2}"#;
    let plan = read_plan(alloc, text.as_bytes())?;
    assert!(rt; write_plan(alloc, &plan)?.as_str() == text);
    Ok(())
}
