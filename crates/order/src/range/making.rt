//! Making a range, and its two ends.
ghost use Rattle.std.specs.Prelude.{◌≡◌, ℕ, ◌-◌, Bool, true, false, if◌then◌else◌, Some, None};
ghost use Rattle.order.specs.Ranges.{is_range, range};

use super::Range;

impl Range {
    /// The range from `low` to `high`; none unless low ≤ high ≤ 255.
    pub fn new(low: u32, high: u32) -> Option<Range>
        ensures { result ≡ (if is_range low high then Some (range low high) else None) }
    {
        let low = u8::try_from(low).ok()?;
        let high = u8::try_from(high).ok()?;
        if low <= high {
            Some(Range { low, high })
        } else {
            None
        }
    }

    /// The least value.
    pub fn low(self) -> u8
        ensures { result ≡ self.low }
    {
        self.low
    }

    /// The greatest value.
    pub fn high(self) -> u8
        ensures { result ≡ self.high }
    {
        self.high
    }

    /// How many bits the order encoding has for it: one for each value above the least.
    pub fn width(self) -> u8
        ensures { result ≡ self.high - self.low }
    {
        self.high - self.low
    }
}
