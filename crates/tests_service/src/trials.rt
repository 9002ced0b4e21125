// What sessions draw at random, and what came of their refreshes.
use pg_service::Limits;
use std::test::Fail;
use tests_kit::Random;
use tests_rounds::{RunCounts, Simulated, random_limits};

// What a shelf keeps of what it is given.
#[derive(Clone, Copy)]
pub(crate) enum Keeping {
    // All, on a device that fails at the call with this number, from 1 on; at none where it is 0.
    All(u64),
    // All but the last byte.
    Beginnings,
    Nothing,
}

// Numbers at random, and what came of the refreshes.
#[derive(Drop)]
pub(crate) struct Trials {
    pub(crate) random: Random,
    counts: RunCounts,
}

impl Trials {
    pub(crate) fn new(seed: u64) -> Trials {
        Trials {
            random: Random::new(seed),
            counts: RunCounts::new(),
        }
    }

    pub(crate) fn below(&mut self, count: u32) -> u32 {
        self.random.below(count)
    }

    pub(crate) fn keeping(&mut self) -> Keeping {
        match self.below(4) {
            0 => Keeping::Beginnings,
            1 => Keeping::Nothing,
            _ => Keeping::All(self.failing()),
        }
    }

    // The call of a shelf at which its device fails; 0 is none.
    fn failing(&mut self) -> u64 {
        match self.below(6) {
            0 => u64::from(self.below(8)).saturating_add(1),
            _ => 0,
        }
    }

    pub(crate) fn limits(&mut self) -> Result<Limits, Fail> {
        random_limits(5, &mut self.random)
    }

    // Whether enough refreshes ended, enough workers fell, and enough refreshes were refused for each reason. In all
    // three tests there are 648 refreshes, in which 424 workers fall: 512 end, 25 are refused as too many workers fell,
    // 99 as none remained, and 12 as the device failed.
    pub(crate) fn is_enough(&self) -> bool {
        let counts = self.counts;
        counts.runs == 216
            && counts.ended > 120
            && counts.losses > 100
            && counts.too_many > 5
            && counts.no_workers > 20
            && counts.device > 2
    }

    // Counts a refresh.
    pub(crate) fn count(&mut self, simulated: &Simulated) {
        self.counts.count(simulated);
    }
}
