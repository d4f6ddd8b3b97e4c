// The energies of space and mark in a window are weighed: is the level good, is space above mark, which bit is it, or is that doubtful, and how
// far apart are they.
// Every function takes every value of its types.
#![tactic(auto)]

ghost use Rattle.std.specs.Prelude.{◌≡◌, true, cond, ◌*◌, ◌≤◌, ltb, pos, ◌-ℤ◌, ◌*ℤ◌};
ghost use Rattle.std.specs.Int.Signed.{lt_z, le_z};
ghost use Rattle.weighing.specs.Weighing.{decided};

use control::{Bit, Decision};

// The least energy of a good level.
const LEVEL: i64 = 32_400_000_000_000_000;

// What two energies decide.
#[tactic(auto, unfolding(crate::specs::Weighing::weighed, crate::specs::Weighing::is_doubtful, crate::specs::Weighing::apart))]
pub fn weigh(space: i64, mark: i64) -> Decision
    ensures { result ≡ decided space mark }
{
    let most = mark.max(space);
    let least = mark.min(space);
    let above = mark < space;
    let bit = if are_close(most, least) {
        Bit::Doubtful
    } else if above {
        Bit::Space
    } else {
        Bit::Mark
    };
    Decision {
        good: LEVEL <= most,
        space: above,
        bit,
        difference: apart(most, least),
    }
}

// The larger number less the smaller one; 0 if that is below 0, which no energy is.
fn apart(most: i64, least: i64) -> i64
    requires { le_z least most ≡ true }
    ensures { result ≡ cond (lt_z least (pos 0)) (pos 0) (most -ℤ least) }
{
    if least < 0 { 0 } else { most - least }
}

// Four times the larger number is less than five times the smaller one, which then is above 0.
fn are_close(most: i64, least: i64) -> bool
    requires { le_z least most ≡ true }
    ensures { result ≡ lt_z (pos 4 *ℤ most) (pos 5 *ℤ least) }
{
    0 < least && near(most.cast_unsigned(), least.cast_unsigned())
}

// The same without products, which 64 bits might not hold: the difference is less than a quarter of the smaller, rounded up.
fn near(most: u64, least: u64) -> bool
    requires { (least ≤ most) × (most ≤ 9223372036854775808) }
    ensures { result ≡ ltb (4 * most) (5 * least) }
{
    most - least < least.div_ceil(4)
}
