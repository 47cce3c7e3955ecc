// Flows of rules on examples: sheets with the test `locked`, where there are tests, and the actions `a` and `b`.
use flows::Flow;
use places::RuleFlow;
use rules::Node;
use sheet::Sheet;
use std::alloc::Global;
use std::test::Fail;
use vocabulary::{Flags, Vocabulary};

fn office(heap: Global, facts: u64) -> Result<Sheet, Fail> {
    let mut sheet = Sheet::begin(heap, &Flags::new(facts)?)?;
    if facts > 0 {
        sheet.name_test(b"locked")?;
    }
    sheet.name_action(b"a")?;
    sheet.name_action(b"b")?;
    Ok(sheet)
}

#[test]
fn a_test_guards_what_follows(rt: HostRuntime) -> Result<(), Fail> {
    let sheet = office(rt.alloc(), 1)?;
    let flow = RuleFlow::read(b"locked;a", &sheet, &mut [Node::Empty; 8])?;
    assert!(rt; flow.situations() == 2 && flow.actions() == 2 && flow.start() == 1);
    assert!(rt; flow.accept(1) == 0 && flow.accept(2) == 3);
    assert!(rt; flow.next(1, 1, 0) == 2 && flow.next(1, 0, 0) == 0);
    assert!(rt; flow.next(1, 1, 1) == 0 && flow.next(2, 1, 0) == 0);
    assert!(rt; flow.next(5, 2, 0) == 5 && flow.next(5, 0, 2) == 5);
    Ok(())
}

#[test]
fn two_signs_are_two_places(rt: HostRuntime) -> Result<(), Fail> {
    let sheet = office(rt.alloc(), 0)?;
    let flow = RuleFlow::read(b"a;(b;a)*", &sheet, &mut [Node::Empty; 8])?;
    assert!(rt; flow.situations() == 1);
    assert!(rt; flow.next(1, 0, 0) == 2 && flow.next(2, 0, 1) == 4);
    assert!(rt; flow.next(4, 0, 0) == 8 && flow.next(8, 0, 1) == 4);
    assert!(rt; flow.accept(2) == 1 && flow.accept(4) == 0 && flow.accept(8) == 1);
    assert!(rt; flow.accept(u64::MAX - 15) == 0 && flow.next(u64::MAX - 15, 0, 0) == 0);
    Ok(())
}

#[test]
fn places_up_to_sixty_three(rt: HostRuntime) -> Result<(), Fail> {
    let sheet = office(rt.alloc(), 6)?;
    let text =
        b"a;a;a;a;a;a;a;a;a;a;a;a;a;a;a;a;a;a;a;a;a;a;a;a;a;a;a;a;a;a;a;a;a;a;a;a;a;a;a;a;a;a;a;a;a;a;a;a;a;a;a;a;a;a;a;a;a;a;a;a;a;a;a";
    let flow = RuleFlow::read(text, &sheet, &mut [Node::Empty; 125])?;
    assert!(rt; flow.next(1 << 62, 63, 0) == 1 << 63);
    assert!(rt; flow.accept(1 << 63) == u64::MAX && flow.accept(1 << 62) == 0);
    assert!(rt; flow.next(1 << 63, 63, 0) == 0);
    Ok(())
}

#[test]
fn nodes_that_are_no_rule(rt: HostRuntime) -> Result<(), Fail> {
    let sheet = office(rt.alloc(), 0)?;
    let none = RuleFlow::over(&[], &sheet);
    assert!(rt; none.accept(u64::MAX) == 0 && none.next(1, 0, 0) == 0);
    let beyond = RuleFlow::over(&[Node::Action(0, 64), Node::Choice(0, 1)], &sheet);
    assert!(rt; beyond.next(1, 0, 0) == 0 && beyond.accept(u64::MAX) == 0);
    Ok(())
}
