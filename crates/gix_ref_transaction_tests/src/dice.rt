//! Numbers that look random, and are the same in each run.

/// A generator of Marsaglia's kind, by three shifts.
#[derive(Debug, Drop)]
pub struct Dice {
    state: u32,
}

impl Dice {
    /// The numbers from a start that is not 0.
    pub fn new(start: u32) -> Dice {
        Dice { state: start }
    }

    /// The next number, below 256.
    pub fn roll(&mut self) -> u32 {
        let mut state = self.state;
        state ^= state << 13;
        state ^= state >> 17;
        state ^= state << 5;
        self.state = state;
        (state >> 9) & 255
    }

    /// Whether the next number is below this one, of 256.
    pub fn is_below(&mut self, limit: u32) -> bool {
        self.roll() < limit
    }

    /// One of these, or the empty text where there are none.
    pub fn pick(&mut self, texts: &[&'static str]) -> &'static str {
        let at = self.roll() as usize;
        if texts.is_empty() {
            return "";
        }
        texts[at % texts.len()]
    }
}
