// Masks made of answers, asked bit by bit.

use crate::{has, mask_where};

#[test]
fn a_mask_has_the_bits_where_the_answer_is_yes(rt: HostRuntime) {
    assert_eq!(rt; mask_where(5, |s| s % 2 == 0), 0b10101);
    assert_eq!(rt; mask_where(0, |_| true), 0);
    assert_eq!(rt; mask_where(64, |_| true), u64::MAX);
    assert!(rt; has(mask_where(64, |s| s == 63), 63));
}
