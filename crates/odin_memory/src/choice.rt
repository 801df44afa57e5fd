// How calls are torn.
ghost use Rattle.std.specs.Prelude.{◌≡◌, ◌≤◌, false};
ghost use Rattle.odin_memory.specs.Choices.{TearsAs, past_digit};

/// How the calls since the last sync are torn. The digits of a number in base 8, from the last one on, say it of one write or cut
/// after the other. From a digit 7 on all is left to chance, which begins with the digits before it.
#[derive(Clone, Copy)]
pub struct Choice {
    rest: u64,
    chance: bool,
}

impl Choice {
    pub fn new(number: u64) -> Self
        ensures { result ≡ record { rest = number; chance = false } }
    {
        Choice {
            rest: number,
            chance: false,
        }
    }

    // A number by chance.
    fn turn(&mut self) -> u64 {
        self.rest = self
            .rest
            .wrapping_mul(6_364_136_223_846_793_005)
            .wrapping_add(1_442_695_040_888_963_407);
        self.rest >> 33
    }

    /// How the next write or cut is torn.
    pub fn how(&mut self) -> u64
        ensures whole { TearsAs 0 self.old → result ≡ 0 }
        ensures none { TearsAs 1 self.old → result ≡ 1 }
        ensures past { TearsAs 0 self.old → self.new ≡ past_digit self.old }
    {
        if self.chance {
            return self.turn() % 8;
        }
        let how = self.rest % 8;
        self.rest /= 8;
        self.chance = how == 7;
        how
    }

    /// A number by chance, at most this one.
    pub fn up_to(&mut self, most: usize) -> usize
        ensures { result ≤ most }
    {
        self.turn() as usize % most.saturating_add(1)
    }
}
