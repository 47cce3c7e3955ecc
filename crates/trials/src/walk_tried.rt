// The walk at its limits: tables and buffers one short and just long enough, and lists that pass or do not.
use charts::{ChartFlow, Line};
use flows::Counts;
use places::RuleFlow;
use rules::Node;
use sheet::Sheet;
use std::alloc::Global;
use std::test::Fail;
use vocabulary::Flags;
use walk::{CodePair, Finding, PairRecord, Side, Verdict, WalkFault, check as check_list, judge};

// A record with zeros alone.
const ZERO: PairRecord = PairRecord {
    pair: CodePair { left: 0, right: 0 },
    from: 0,
    situation: 0,
    action: 0,
};

// Something else, to see what is touched.
const OTHER: PairRecord = PairRecord {
    pair: CodePair { left: 9, right: 9 },
    from: 9,
    situation: 9,
    action: 9,
};

// No facts, and the actions `a` and `b`.
fn plain(heap: Global) -> Result<Sheet, Fail> {
    let mut sheet = Sheet::begin(heap, &Flags::new(0)?)?;
    sheet.name_action(b"a")?;
    sheet.name_action(b"b")?;
    Ok(sheet)
}

fn rule(sheet: &Sheet, text: &[u8]) -> Result<RuleFlow, Fail> {
    Ok(RuleFlow::read(text, sheet, &mut [Node::Empty; 16])?)
}

fn pair(left: u64, right: u64) -> CodePair {
    CodePair { left, right }
}

#[test]
fn tables_at_their_limits(rt: HostRuntime) -> Result<(), Fail> {
    let sheet = plain(rt.alloc())?;
    let left = rule(&sheet, b"(a;b)*;a")?;
    let right = rule(&sheet, b"a;(b;a)*")?;
    assert!(rt;
        matches!(
            judge(&left, &right, &mut [], &mut []),
            Err(WalkFault::TableFull)
        )
    );
    assert!(rt;
        matches!(
            judge(&left, &right, &mut [OTHER; 1], &mut []),
            Err(WalkFault::TableFull)
        )
    );
    let mut four = [OTHER; 4];
    assert!(rt;
        matches!(
            judge(&left, &right, &mut four, &mut []),
            Err(WalkFault::TableFull)
        )
    );
    assert!(rt; four[0] == ZERO && four[3] == ZERO);
    let mut six = [OTHER; 6];
    assert!(rt;
        matches!(
            judge(&left, &right, &mut six, &mut []),
            Ok(Verdict::Equal(5))
        )
    );
    assert!(rt; six[4].pair.left == 10 && six[4].pair.right == 8 && six[5] == ZERO);
    Ok(())
}

#[test]
fn five_records_are_enough_and_2049_too_many(rt: HostRuntime) -> Result<(), Fail> {
    let sheet = plain(rt.alloc())?;
    let left = rule(&sheet, b"(a;b)*;a")?;
    let right = rule(&sheet, b"a;(b;a)*")?;
    assert!(rt;
        matches!(
            judge(&left, &right, &mut [OTHER; 5], &mut []),
            Ok(Verdict::Equal(5))
        )
    );
    assert!(rt;
        matches!(
            judge(&left, &right, &mut [OTHER; 2048], &mut []),
            Ok(Verdict::Equal(5))
        )
    );
    let mut large = [OTHER; 2049];
    assert!(rt;
        matches!(
            judge(&left, &right, &mut large, &mut []),
            Err(WalkFault::TableTooLarge)
        )
    );
    assert!(rt; large[0] == OTHER && large[2048] == OTHER);
    Ok(())
}

#[test]
fn buffers_at_their_limits(rt: HostRuntime) -> Result<(), Fail> {
    let sheet = plain(rt.alloc())?;
    let left = rule(&sheet, b"a;b;a")?;
    let right = rule(&sheet, b"a;b")?;
    let mut table = [OTHER; 8];
    let mut short = [7u8; 4];
    assert!(rt;
        matches!(
            judge(&left, &right, &mut table, &mut short),
            Err(WalkFault::BufferTooShort(5))
        )
    );
    assert!(rt; short[0] == 7 && table[0] == ZERO);
    let mut run = [7u8; 6];
    assert!(rt;
        matches!(
            judge(&left, &right, &mut [OTHER; 8], &mut run),
            Ok(Verdict::Different(2, Side::Right))
        )
    );
    assert!(rt; run[0] == 0 && run[1] == 0 && run[3] == 1 && run[4] == 0 && run[5] == 7);
    assert!(rt;
        matches!(
            judge(&left, &right, &mut [OTHER; 8], &mut [7u8; 5]),
            Ok(Verdict::Different(2, Side::Right))
        )
    );
    Ok(())
}

#[test]
fn lists_that_pass_and_lists_that_do_not(rt: HostRuntime) -> Result<(), Fail> {
    let sheet = plain(rt.alloc())?;
    let left = rule(&sheet, b"(a;b)*;a")?;
    let right = rule(&sheet, b"a;(b;a)*")?;
    let other_order = [pair(4, 4), pair(10, 8), pair(0, 0), pair(10, 2), pair(1, 1)];
    assert!(rt; matches!(check_list(&left, &right, &other_order), Ok(Finding::Passes)));
    assert!(rt;
        matches!(
            check_list(&left, &right, &other_order[0..4]),
            Ok(Finding::StartMissing)
        )
    );
    assert!(rt; matches!(check_list(&left, &right, &[]), Ok(Finding::StartMissing)));
    assert!(rt;
        matches!(
            check_list(&left, &right, &[pair(1, 1)]),
            Ok(Finding::StepFails(0))
        )
    );
    let stray = [
        pair(1, 1),
        pair(10, 2),
        pair(0, 0),
        pair(4, 4),
        pair(10, 8),
        pair(10, 0),
    ];
    assert!(rt; matches!(check_list(&left, &right, &stray), Ok(Finding::MasksFail(5))));
    assert!(rt;
        matches!(
            check_list(&left, &right, &[pair(1, 1); 2049]),
            Err(WalkFault::TableTooLarge)
        )
    );
    Ok(())
}

#[test]
fn unlike_flows_are_refused(rt: HostRuntime) -> Result<(), Fail> {
    let sheet = plain(rt.alloc())?;
    let left = rule(&sheet, b"a")?;
    let counts = Counts {
        situations: 2,
        actions: 2,
    };
    let right = ChartFlow::new(counts, 1, &[])?;
    let mut table = [OTHER; 2];
    assert!(rt;
        matches!(
            judge(&left, &right, &mut table, &mut []),
            Err(WalkFault::Unlike)
        )
    );
    assert!(rt; table[1] == ZERO);
    assert!(rt; matches!(check_list(&left, &right, &[]), Err(WalkFault::Unlike)));
    Ok(())
}

#[test]
fn sixty_four_situations_by_sixteen_actions(rt: HostRuntime) -> Result<(), Fail> {
    let counts = Counts {
        situations: 64,
        actions: 16,
    };
    let all = 0xFFFF_FFFF_FFFF_FFFF;
    let ring = [
        Line::Move {
            from: 0,
            mask: all,
            action: 15,
            to: 1,
        },
        Line::Move {
            from: 1,
            mask: all,
            action: 15,
            to: 0,
        },
        Line::End { at: 0, mask: all },
        Line::End { at: 1, mask: all },
    ];
    let one = [
        Line::Move {
            from: 0,
            mask: all,
            action: 15,
            to: 0,
        },
        Line::End { at: 0, mask: all },
    ];
    let left = ChartFlow::new(counts, 2, &ring)?;
    let right = ChartFlow::new(counts, 1, &one)?;
    let mut table = [ZERO; 4];
    let mut run = [0u8; 9];
    assert!(rt;
        matches!(
            judge(&left, &right, &mut table, &mut run),
            Ok(Verdict::Equal(3))
        )
    );
    let less = [
        Line::Move {
            from: 0,
            mask: all,
            action: 15,
            to: 0,
        },
        Line::End {
            at: 0,
            mask: 0x7FFF_FFFF_FFFF_FFFF,
        },
    ];
    let third = ChartFlow::new(counts, 1, &less)?;
    assert!(rt;
        matches!(
            judge(&left, &third, &mut table, &mut run),
            Ok(Verdict::Different(0, Side::Left))
        )
    );
    assert!(rt; run[0] == 63);
    Ok(())
}
