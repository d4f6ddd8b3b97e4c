// Sines of 32 phases at once. A phase is folded into the first quarter, to a place of the table and a sign; the number there is looked up,
// and gets its sign.
//
// Each of the three has a loop of its own: a machine folds eight phases at once, or gives eight signs, which one loop for all would prevent.
ghost use Rattle.std.specs.Prelude.{◌≡◌, map, ◌%◌};
ghost use Rattle.sine.specs.Sine.{S};
ghost use Rattle.sine.specs.Wave.{phases, wave};
ghost use Rattle.sine.specs.Fold.{HoldsQuarter, InQuarter, place_of, sign_of};

// The sines of 32 phases, a step apart.
pub(crate) fn sines(quarter: &[i16; 481], step: u16, phase: u16) -> [i16; 32]
    requires { HoldsQuarter quarter.now }
    ensures { result ≡ wave 32 step phase }
{
    let phases = phases(step, phase);
    let found = look_up(quarter, &places(&phases));
    signed(&found, &phases)
}

// Taken modulo 1,920, phase and step give no number above 65,535.
fn phases(step: u16, phase: u16) -> [u16; 32]
    ensures { result ≡ phases 32 (step % 1920) (phase % 1920) }
{
    let first = phase % 1920;
    let ahead = step % 1920;
    let mut phases = [0; 32];
    for j in 0..32 {
        phases[j as usize] = first + j * ahead;
    }
    phases
}

fn places(phases: &[u16; 32]) -> [u16; 32]
    ensures { result ≡ map place_of phases.now }
{
    let mut places = [0; 32];
    for (j, phase) in phases.iter().enumerate() {
        places[j] = place_of(*phase);
    }
    places
}

fn look_up(quarter: &[i16; 481], places: &[u16; 32]) -> [i16; 32]
    requires holds_quarter { HoldsQuarter quarter.now }
    requires in_quarter { InQuarter places.now }
    ensures { result ≡ map S places.now }
{
    let mut found = [0; 32];
    for (j, place) in places.iter().enumerate() {
        found[j] = quarter[*place as usize];
    }
    found
}

fn signed(found: &[i16; 32], phases: &[u16; 32]) -> [i16; 32]
    requires { found.now ≡ map S (map place_of phases.now) }
    ensures { result ≡ map S phases.now }
{
    let mut sines = [0; 32];
    for (j, phase) in phases.iter().enumerate() {
        sines[j] = found[j] * sign_of(*phase);
    }
    sines
}

#[tactic(auto, unfolding(crate::specs::Fold::place_of))]
fn place_of(phase: u16) -> u16
    ensures { result ≡ place_of phase }
{
    let ahead = phase % 960;
    let left = 960 - ahead;
    ahead.min(left)
}

#[tactic(auto, unfolding(crate::specs::Fold::sign_of))]
fn sign_of(phase: u16) -> i16
    ensures { result ≡ sign_of phase }
{
    if phase / 960 % 2 == 0 { 1 } else { -1 }
}
