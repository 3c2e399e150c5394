// How high the orders of THD go, by the number of an edition.
ghost use Rattle.std.specs.Prelude.{◌≡◌};
ghost use Rattle.distortion.specs.Editions.{highest_order};

// The highest order of an edition; 0 of a number that is none.
#[tactic(auto, unfolding(crate::specs::Editions::by_edition))]
pub fn highest_order(edition: u8) -> usize
    ensures { result ≡ highest_order edition }
{
    match edition {
        1 => 16,
        2 => 40,
        _ => 0,
    }
}
