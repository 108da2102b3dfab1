// The ranges of documents 01 and 02, each with its numbers in one place. Numbers in calls are 32-bit. The definitions are in specs/.
#![tactic(auto)]

ghost use Rattle.std.specs.Prelude.{◌≡◌};
ghost use Rattle.ranges.specs.Ranges.{within, charge_fits, share_of, link_fits, delay_fits, permitted_fits, vid_fits};

// The ends of a charge's range; P has the same lower end.
pub const LEAST_CHARGE: u32 = 84;

pub const GREATEST_CHARGE: u32 = 2020;

// The greatest share.
const GREATEST_SHARE: u32 = 21504;

// The ends of L.
const LEAST_LINK: u32 = GREATEST_CHARGE + LEAST_CHARGE;

const GREATEST_LINK: u32 = GREATEST_CHARGE + GREATEST_SHARE;

// The ends of K.
const LEAST_DELAY: u32 = 1;

const GREATEST_DELAY: u32 = 16;

// The ends of a VID.
const LEAST_VID: u32 = 1;

const GREATEST_VID: u32 = 4094;

// Whether the number is one from the least to the greatest.
pub fn within(number: u32, least: u32, greatest: u32) -> bool
    ensures { result ≡ within least greatest number }
{
    (least..=greatest).contains(&number)
}

// Whether the charge is in its range. Each range stays a function beside `within`: it has its ends in one place, and the name of its definition.
pub fn charge_fits(charge: u32) -> bool
    ensures { result ≡ charge_fits charge }
{
    within(charge, LEAST_CHARGE, GREATEST_CHARGE)
}

// Whether L is in its range.
pub fn link_fits(link: u32) -> bool
    ensures { result ≡ link_fits link }
{
    within(link, LEAST_LINK, GREATEST_LINK)
}

// Whether K is in its range.
pub fn delay_fits(delay: u32) -> bool
    ensures { result ≡ delay_fits delay }
{
    within(delay, LEAST_DELAY, GREATEST_DELAY)
}

// Whether P is in its range.
pub fn permitted_fits(permitted: u32) -> bool
    ensures { result ≡ permitted_fits permitted }
{
    LEAST_CHARGE <= permitted
}

// Whether the VID is in its range.
pub fn vid_fits(vid: u32) -> bool
    ensures { result ≡ vid_fits vid }
{
    within(vid, LEAST_VID, GREATEST_VID)
}

// The share of a link.
pub fn share(link: u16) -> u32
    ensures { result ≡ share_of link }
{
    (link as u32).saturating_sub(GREATEST_CHARGE)
}
