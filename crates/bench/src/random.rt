//! Numbers in no order.

/// The next of a row of numbers.
pub fn next_random(x: u64) -> u64 {
    x.wrapping_mul(6364136223846793005)
        .wrapping_add(1442695040888963407)
}

/// The bits of such a number that are random enough, in all places.
pub fn mixed(x: u64) -> u64 {
    (x ^ (x >> 33)).wrapping_mul(0xff51afd7ed558ccd)
}
