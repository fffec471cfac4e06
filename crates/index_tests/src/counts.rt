use index_holds::Holds;
use std::test::Fail;

#[test]
fn current_generations_are_held_in_order(rt: HostRuntime) -> Result<(), Fail> {
    let mut holds = Holds::new(rt.alloc());
    holds.current(7)?;
    holds.current(3)?;
    holds.reserve(2)?;
    let told = format!(in rt.alloc(); "{holds:?}")?;
    assert_eq!(rt;
        told.as_str(),
        "Holds { entries: [Held { generation: 3, current: true, holders: 0 }, \
         Held { generation: 7, current: true, holders: 0 }], spare: 2 }",
    );
    Ok(())
}
