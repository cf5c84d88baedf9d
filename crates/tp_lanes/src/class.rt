// Classes of bytes.
ghost use Rattle.std.specs.Prelude.{◌≡◌, ◌<◌};
ghost use Rattle.tp_lanes.specs.Classes as spec;

/// The bytes within the first `count` ranges. A range has its ends.
pub struct Class {
    pub count: u8,
    pub from: [u8; 4],
    pub to: [u8; 4],
}

impl Class {
    /// The ends of a range. One that doesn't count has no byte.
    #[inline(always)]
    pub fn ends(&self, range: usize) -> (u8, u8)
        requires { range < 4 }
        ensures { result ≡ spec.range_ends self.now range }
    {
        if range < self.count as usize {
            (self.from[range], self.to[range])
        } else {
            (255, 0)
        }
    }

    #[inline(always)]
    fn range_has(&self, range: usize, byte: u8) -> bool
        requires { range < 4 }
        ensures { result ≡ spec.in_range self.now range byte }
    {
        range < self.count as usize && self.from[range] <= byte && byte <= self.to[range]
    }

    /// Whether one of the ranges has the byte.
    #[inline(always)]
    pub fn has(&self, byte: u8) -> bool
        ensures { result ≡ spec.in_class self.now byte }
    {
        self.range_has(0, byte)
            || self.range_has(1, byte)
            || self.range_has(2, byte)
            || self.range_has(3, byte)
    }
}
