// The order of a fold shows in its last digit: 0.1, 0.2 and 0.3 added forward and backward.
use crate::binary;
use semantics::operation::Binary::Add;

const TENTHS: [u64; 3] = [
    0x3fb9_9999_9999_999a,
    0x3fc9_9999_9999_999a,
    0x3fd3_3333_3333_3333,
];

#[test]
fn sums_keep_their_order(rt: HostRuntime) {
    let [a, b, c] = TENTHS;
    assert_eq!(rt; binary(Add, binary(Add, a, b), c), 0x3fe3_3333_3333_3334);
    assert_eq!(rt; binary(Add, binary(Add, c, b), a), 0x3fe3_3333_3333_3333);
}
