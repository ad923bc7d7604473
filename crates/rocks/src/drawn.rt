//! Numbers that look drawn, and are the same in each run.

/// Gives one number after another.
#[derive(Drop)]
pub struct Drawn {
    state: u64,
}

impl Drawn {
    /// The numbers from their first on.
    pub fn new() -> Self {
        Drawn { state: 1 }
    }

    /// The next number, at least 0 and less than a limit.
    pub fn below(&mut self, limit: f64) -> f64 {
        let times = self.state.wrapping_mul(6364136223846793005);
        self.state = times.wrapping_add(1442695040888963407);
        let drawn = ((self.state >> 40) & 0xff_ffff) as u32;
        f64::from(drawn) * limit / f64::from(1u32 << 24)
    }
}
