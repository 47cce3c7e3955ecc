// The rule reader on examples: a sheet with the test `locked` and the actions `send` and `keep`.
use crate::{Node, faulty_sign, read_rule};
use grammar::RuleFault;
use refusals::Refusal;
use sheet::Sheet;
use std::alloc::Global;
use std::test::Fail;
use vocabulary::Flags;

fn office(heap: Global) -> Result<Sheet, Fail> {
    let mut sheet = Sheet::begin(heap, &Flags::new(1)?)?;
    sheet.name_test(b"locked")?;
    sheet.name_action(b"send")?;
    sheet.name_action(b"keep")?;
    Ok(sheet)
}

fn refuses(sheet: &Sheet, text: &[u8], number: u8, place: usize) -> bool {
    match read_rule(text, sheet.names(), &mut [Node::Stop; 40]) {
        Ok(_) => false,
        Err(fault) => {
            let refusal = Refusal::from(fault);
            refusal.number == number && refusal.place == place
        }
    }
}

#[test]
fn only_tests_are_negated(rt: HostRuntime) -> Result<(), Fail> {
    let sheet = office(rt.alloc())?;
    assert!(rt; refuses(&sheet, b"!send", 12, 0));
    assert!(rt; refuses(&sheet, b"!!send", 12, 1));
    Ok(())
}

#[test]
fn signs_that_cannot_come(rt: HostRuntime) -> Result<(), Fail> {
    let sheet = office(rt.alloc())?;
    assert!(rt; refuses(&sheet, b"send;", 9, 5));
    assert!(rt; refuses(&sheet, b"send $", 6, 5));
    assert!(rt; refuses(&sheet, b"", 9, 0));
    assert!(rt; refuses(&sheet, b"()", 9, 1));
    assert!(rt; refuses(&sheet, b"send)", 9, 4));
    assert!(rt; refuses(&sheet, b"sent", 10, 0));
    Ok(())
}

#[test]
fn levels_at_their_limit(rt: HostRuntime) -> Result<(), Fail> {
    let sheet = office(rt.alloc())?;
    let mut nodes = [Node::Empty; 40];
    let text = b"!!!!!!!!!!!!!!!!!!!!!!!!!!!!!!!!locked";
    assert!(rt; read_rule(text, sheet.names(), &mut nodes)?.nodes == 33);
    assert!(rt; refuses(&sheet, b"!!!!!!!!!!!!!!!!!!!!!!!!!!!!!!!!!locked", 11, 32));
    Ok(())
}

#[test]
fn a_rule_is_laid_out_parts_first(rt: HostRuntime) -> Result<(), Fail> {
    let sheet = office(rt.alloc())?;
    let mut nodes = [Node::Stop; 4];
    let rule = read_rule(b"locked;keep", sheet.names(), &mut nodes)?;
    assert!(rt; rule.nodes == 3 && rule.actions == 1);
    assert!(rt; nodes[0] == Node::Test(0) && nodes[1] == Node::Action(1, 1));
    assert!(rt; nodes[2] == Node::Chain(0, 1) && nodes[3] == Node::Stop);
    Ok(())
}

#[test]
fn no_room_is_told_last(rt: HostRuntime) -> Result<(), Fail> {
    let sheet = office(rt.alloc())?;
    assert!(rt;
        matches!(
            read_rule(b"send", sheet.names(), &mut []),
            Err(RuleFault::NoRoom)
        )
    );
    assert!(rt;
        matches!(
            read_rule(b"send;", sheet.names(), &mut []),
            Err(RuleFault::Unfit(5))
        )
    );
    Ok(())
}

#[test]
fn the_faulty_sign_is_shown(rt: HostRuntime) {
    assert!(rt;
        matches!(
            faulty_sign(b"send;sent", RuleFault::UnknownName(5)),
            b"sent"
        )
    );
    assert!(rt; matches!(faulty_sign(b"!send", RuleFault::NotATest(0)), b"!"));
    assert!(rt; matches!(faulty_sign(b"send;", RuleFault::Unfit(5)), b""));
}
