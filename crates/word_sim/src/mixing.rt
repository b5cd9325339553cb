/// A hash of two words, `one` and `other`: SplitMix64's finalizer of `(one * p) ^ (other + q)`, where `p` is the odd
/// number by which SplitMix64 counts, and `q` is `p` with its halves exchanged.
pub fn mix(one: u64, other: u64) -> u64 {
    let sum = one.wrapping_mul(0x9e37_79b9_7f4a_7c15) ^ other.wrapping_add(0x7f4a_7c15_9e37_79b9);
    let high = (sum ^ (sum >> 30)).wrapping_mul(0xbf58_476d_1ce4_e5b9);
    let low = (high ^ (high >> 27)).wrapping_mul(0x94d0_49bb_1331_11eb);
    low ^ (low >> 31)
}
