//! The numbers of live nodes among those that have a word.
ghost use Rattle.std.specs.Prelude.{◌≡◌, ◌<◌, ◌^◌, AllPairs, length, slice_index};
ghost use Rattle.box_handoff.specs.LiveNodes.{Shown, splits_of};
ghost use Rattle.box_handoff.specs.Entries.{IsGiven, frame, given_of, numbers, place_in};
ghost use Rattle.box_handoff.specs.Climbs.{IsPlace};

use crate::views::About;

/// How many live nodes there are.
pub fn count_of(about: &About<'_>) -> usize
    requires { IsGiven (given_of about.now) }
    ensures { result ≡ (numbers (given_of about.now)).count }
{
    match &about.spots {
        None => about.keys.len() - 1,
        Some(spots) => spots.splits.len(),
    }
}

/// Where a number stands in a list that rises and has it.
fn find(spots: &[u32], split: u32) -> usize
    requires rising { AllPairs (λ p q. p < q) spots.now }
    requires there { place_in spots.now split < length spots.now }
    ensures { result ≡ place_in spots.now split }
{
    spots.partition_point(|spot| *spot < split)
}

/// The number of a live node.
pub fn place_of(about: &About<'_>, split: u32) -> usize
    requires given { IsGiven (given_of about.now) }
    requires seen { Shown (frame (given_of about.now)) split }
    ensures place { IsPlace (given_of about.now) result split }
    ensures small { result < 2 ^ 32 }
{
    match &about.spots {
        None => split as usize,
        Some(spots) => find(spots.splits.as_slice(), split),
    }
}

/// The split of the live node of a number.
pub fn spot_of(about: &About<'_>, place: usize) -> u32
    requires given { IsGiven (given_of about.now) }
    requires within { place < (numbers (given_of about.now)).count }
    ensures { result ≡ slice_index (splits_of (frame (given_of about.now))) place }
{
    match &about.spots {
        None => place as u32,
        Some(spots) => spots.splits[place],
    }
}
