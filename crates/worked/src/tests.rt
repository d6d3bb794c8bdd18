use crate::examples::{Worked, worked_examples};
use chains::chain::Estimate;

#[test]
fn answers(rt: HostRuntime) {
    let wanted = Worked {
        products: [1, 1, 24],
        unlawful: Some(13),
        codeword: [0, 1, 2, 3, 4, 5, 6, 7],
        mended: ([0, 1, 2, 3, 4, 5, 6, 7], 6),
        repeated: ([1; 4], 3),
        too_far: Some(12),
        cells: [0, 0, 0, 1, 0, 0, 0, 1],
        near: Some(Estimate { label: 1, harm: 6 }),
        midway: None,
        chosen: ([1; 2], Some(10)),
        tied: ([0; 2], None),
    };
    assert_eq!(rt; worked_examples(), Ok(wanted));
}
