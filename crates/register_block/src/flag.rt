// The flags of the block: each is an octet, and has a bit in the flags and in the mask.
ghost use Rattle.std.specs.Prelude.{◌≡◌, ◌<◌, ◌≤◌, if◌then◌else◌};
ghost use Rattle.register_block.specs.Layout.{WholeBlock};
ghost use Rattle.register_block.specs.Fields.{flag_at};
ghost use Rattle.register_block.specs.Shown.{shares_one};
ghost use Rattle.register_block.specs.Written.{cleared_by};
ghost use Rattle.register_block.specs.Kinds.{flag_octet, flag_weight, flag_put};

// A flag, by its octet.
#[derive(Clone, Copy, Debug, PartialEq, Eq, Drop)]
pub(crate) enum Flag {
    Discard = 0,
    Purge = 1,
    Nothing = 2,
}

// The octet of a flag that is up; it is down by any other.
const UP: u8 = 1;

impl Flag {
    // The flag's octet.
    fn octet(self) -> usize
        ensures { result ≡ flag_octet self }
    {
        self as usize
    }

    // The weight of the flag's bit.
    fn weight(self) -> u32
        ensures weighs { result ≡ flag_weight self }
        ensures positive { 0 < result }
    {
        match self {
            Flag::Discard => crate::BIT_0,
            Flag::Purge => crate::BIT_1,
            Flag::Nothing => crate::BIT_2,
        }
    }

    // Whether the flag is up.
    #[tactic(auto, unfolding(crate::specs::Fields::flag_at))]
    fn is_up(self, block: &[u8]) -> bool
        requires { WholeBlock block.now }
        ensures { result ≡ flag_at block.now (flag_octet self) }
    {
        block[self.octet()] == UP
    }

    // Puts the flag up, or takes it down.
    #[tactic(auto, unfolding(crate::specs::Fields::with_flag, crate::specs::Fields::without_flag))]
    pub(crate) fn put(self, block: &mut [u8], up: bool)
        requires { WholeBlock block.old }
        ensures { block.new ≡ flag_put up block.old (flag_octet self) }
    {
        block[self.octet()] = u8::from(up);
    }

    // The weight of the flag where it is up, or 0.
    pub(crate) fn shown(self, block: &[u8]) -> u32
        requires { WholeBlock block.now }
        ensures shows { result ≡ (if flag_at block.now (flag_octet self) then flag_weight self else 0) }
        ensures small { result ≤ 4 }
    {
        crate::weighted(self.is_up(block), self.weight())
    }

    // Whether the flag is up, and its bit in the mask is one.
    #[tactic(auto, unfolding(crate::specs::Shown::shares_one))]
    pub(crate) fn shares_one(self, block: &[u8]) -> bool
        requires { WholeBlock block.now }
        ensures { result ≡ shares_one block.now (flag_octet self) (flag_weight self) }
    {
        self.is_up(block) && crate::bit_of(crate::word_at(block, crate::MASK), self.weight())
    }

    // Takes the flag down where its bit in a number is one.
    #[tactic(auto, unfolding(crate::specs::Written::cleared_by))]
    pub(crate) fn clear_by(self, block: &mut [u8], number: u32)
        requires { WholeBlock block.old }
        ensures { block.new ≡ cleared_by (flag_octet self) (flag_weight self) number block.old }
    {
        if crate::bit_of(number, self.weight()) {
            self.put(block, false);
        }
    }
}
