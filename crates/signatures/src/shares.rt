// A share as two numbers: equal exactly where the cross products are.
ghost use Rattle.std.specs.Prelude.{◌<◌, ◌≡◌};
ghost use Rattle.signatures.specs.Shares.{high_share, low_share};

const BASE: usize = 1073741824;

// Returns the two numbers of a share.
#[tactic(auto, unfolding(crate::specs::Shares::high_share, crate::specs::Shares::low_share))]
pub(crate) fn share(weight: usize, denominator: usize) -> (u32, u32)
    requires { (weight < 8589934592) × (denominator < 1073741824) }
    ensures high { result.0 ≡ high_share weight denominator }
    ensures low { result.1 ≡ low_share weight denominator }
{
    if denominator == 0 {
        return (0, 0);
    }
    let whole = weight * BASE;
    let high = whole / denominator % 4294967296;
    let low = whole % denominator * BASE / denominator;
    (high as u32, low as u32)
}
