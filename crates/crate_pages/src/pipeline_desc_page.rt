//! A description is read to a plan, and another one is refused.
use pipeline_desc::{Refusal, RefusalKind, Refused, events, node, read, rows};
use pull_nodes::Kind;
use std::test::Fail;

#[test]
fn a_description_is_a_plan_or_refused(rt: HostRuntime) -> Result<(), Fail> {
    let alloc = rt.alloc();
    let errors = "[[stream]]\npath = 'app.log'\nsteps = ['utf8', 'lines', 'filter ERROR']\n";
    let plan = read(alloc, errors.as_bytes())?;
    assert_eq!(rt; (plan.chunk(), plan.take()), (4096, None));
    assert_eq!(rt; plan.streams().len(), 1);
    assert_eq!(rt; plan.stream(0).path.as_str(), "app.log");
    let part = node(alloc, &plan, 0)?;
    assert_eq!(rt; part.kind(), Ok(Kind::Lines));
    assert!(rt; part.placed(rows(&plan, 0)));
    assert!(rt; part.events() <= events(&plan, 0));

    let clash = read(
        alloc,
        b"[[stream]]\npath = 'a'\nsteps = ['lines', 'utf8']\n",
    );
    let (stream, step) = (Some(0), Some(1));
    let kind = RefusalKind::KindClash;
    let refusal = Refusal { kind, stream, step };
    assert_eq!(rt; clash.err(), Some(Refused::Desc(refusal)));
    Ok(())
}
