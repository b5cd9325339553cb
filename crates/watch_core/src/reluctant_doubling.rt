/// The sequence 1, 1, 2, 1, 1, 2, 4, 1, 1, 2, 1, 1, 2, 4, 8, .. of Luby, Sinclair and Zuckerman (Information Processing
/// Letters 47, 1993): how long a search goes on before it starts over, in a unit of the search's own. Of the first
/// 2^k - 1 numbers those of each size have the same sum. By it a search whose length is drawn, nobody knows from what
/// distribution, takes O(n log n) steps where the best lengths for that distribution would take n.
///
/// It is made by Knuth's reluctant doubling (The Art of Computer Programming, volume 4B, 7.2.2.2), as the v of pairs
/// (u, v): the first is (1, 1), and after (u, v) comes (u + 1, 1) where v is the greatest power of two that divides u,
/// and else (u, 2v).
#[derive(Drop)]
pub struct ReluctantDoubling {
    u: u64,
    v: u64,
}

impl ReluctantDoubling {
    /// The sequence from its first number on.
    pub fn new() -> ReluctantDoubling {
        ReluctantDoubling { u: 1, v: 1 }
    }

    /// The next number.
    pub fn next(&mut self) -> u64 {
        let number = self.v;
        if self.u & self.u.wrapping_neg() == number {
            self.u = self.u.saturating_add(1);
            self.v = 1;
        } else {
            self.v = number.saturating_mul(2);
        }
        number
    }
}
