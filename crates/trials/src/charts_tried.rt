// Charts at their limits, and their answers on examples.
use charts::{ChartFault, ChartFlow, Line};
use flows::{Counts, Flow, allows};
use refusals::{Layer, Refusal};
use std::test::Fail;

const TWO_BY_TWO: Counts = Counts {
    situations: 2,
    actions: 2,
};

// Whether a chart is refused under this number and at this place.
fn refused(made: Result<ChartFlow, ChartFault>, number: u8, place: usize) -> bool {
    match made {
        Ok(_) => false,
        Err(fault) => Refusal::from(fault)
            == Refusal {
                layer: Layer::Chart,
                number,
                place,
            },
    }
}

#[test]
fn states_and_lines_at_their_limits(rt: HostRuntime) -> Result<(), Fail> {
    let lines = [Line::End { at: 0, mask: 1 }; 257];
    assert!(rt;
        refused(ChartFlow::new(TWO_BY_TWO, 0, &[]), 13, 0)
            && refused(ChartFlow::new(TWO_BY_TWO, 256, &[]), 13, 0)
    );
    assert!(rt; refused(ChartFlow::new(TWO_BY_TWO, 1, &lines), 13, 0));
    let one = ChartFlow::new(TWO_BY_TWO, 1, &lines[0..256])?;
    let most = ChartFlow::new(
        TWO_BY_TWO,
        255,
        &[
            Line::Move {
                from: 0,
                mask: 1,
                action: 1,
                to: 254,
            },
            Line::End { at: 254, mask: 2 },
        ],
    )?;
    assert!(rt;
        one.accept(0) == 1
            && most.next(0, 0, 1) == 254
            && most.accept(254) == 2
            && most.accept(255) == 0
    );
    Ok(())
}

#[test]
fn lines_within_their_counts(rt: HostRuntime) -> Result<(), Fail> {
    let narrow = Counts {
        situations: 1,
        actions: 0,
    };
    assert!(rt;
        refused(
            ChartFlow::new(
                narrow,
                1,
                &[Line::End { at: 0, mask: 1 }, Line::End { at: 0, mask: 2 }],
            ),
            14,
            1,
        )
    );
    assert!(rt;
        refused(
            ChartFlow::new(
                narrow,
                1,
                &[Line::Move {
                    from: 0,
                    mask: 1,
                    action: 0,
                    to: 0,
                }],
            ),
            14,
            0,
        )
    );
    let wide = Counts {
        situations: 64,
        actions: 16,
    };
    let flow = ChartFlow::new(
        wide,
        1,
        &[Line::Move {
            from: 0,
            mask: 0xFFFF_FFFF_FFFF_FFFF,
            action: 15,
            to: 0,
        }],
    )?;
    assert!(rt;
        flow.situations() == 64
            && flow.actions() == 16
            && flow.next(0, 63, 15) == 0
            && flow.next(0, 63, 14) == 255
    );
    let beyond = [
        Line::Move {
            from: 1,
            mask: 1,
            action: 0,
            to: 0,
        },
        Line::Move {
            from: 0,
            mask: 1,
            action: 0,
            to: 1,
        },
        Line::Move {
            from: 0,
            mask: 1,
            action: 16,
            to: 0,
        },
        Line::End { at: 1, mask: 1 },
    ];
    for place in 0..4 {
        assert!(rt; refused(ChartFlow::new(wide, 1, &beyond[place..4]), 14, 0));
    }
    Ok(())
}

#[test]
fn two_states_and_past_them(rt: HostRuntime) -> Result<(), Fail> {
    let lines = [
        Line::Move {
            from: 0,
            mask: 3,
            action: 0,
            to: 1,
        },
        Line::End { at: 1, mask: 3 },
    ];
    let flow = ChartFlow::new(TWO_BY_TWO, 2, &lines)?;
    assert!(rt; flow.start() == 0 && flow.next(0, 1, 0) == 1 && flow.next(1, 1, 0) == 255);
    assert!(rt;
        flow.next(255, 0, 0) == 255
            && flow.next(1_000_000, 0, 0) == 255
            && flow.next(1_000_000, 2, 0) == 1_000_000
    );
    assert!(rt;
        flow.accept(0) == 0
            && flow.accept(1) == 3
            && flow.accept(255) == 0
            && flow.accept(1_000_000) == 0
    );
    assert!(rt;
        allows(&flow, &[0, 0, 1])
            && !allows(&flow, &[0, 1, 1])
            && !allows(&flow, &[0, 0, 1, 0, 1])
            && !allows(&flow, &[0, 0])
    );
    Ok(())
}

#[test]
fn first_fitting_line_and_joined_ends(rt: HostRuntime) -> Result<(), Fail> {
    let lines = [
        Line::Move {
            from: 0,
            mask: 1,
            action: 0,
            to: 1,
        },
        Line::End { at: 0, mask: 1 },
        Line::Move {
            from: 0,
            mask: 3,
            action: 0,
            to: 2,
        },
        Line::End { at: 0, mask: 2 },
    ];
    let flow = ChartFlow::new(TWO_BY_TWO, 3, &lines)?;
    assert!(rt; flow.next(0, 0, 0) == 1 && flow.next(0, 1, 0) == 2 && flow.accept(0) == 3);
    Ok(())
}
