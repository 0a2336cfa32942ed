// The amplitude of one cycle of samples: a full-cycle Fourier sum, and CORDIC for its magnitude, for the fundamental
// and for the second and third harmonic. The six channels of a relay go through CORDIC side by side, so that the
// compiler can use the lanes of a vector register; spare lanes hold 0. The entry point is `estimate`. Every other
// public function is internal to the project: `relay` calls it, and meets its `requires`.
#![tactic(auto)]

ghost use Rattle.std.specs.Prelude.{◌≡◌, true, ◌≤◌, ◌<◌, ◌^◌, T, pos, nat_abs};
ghost use Rattle.std.specs.Int.Signed.{non_neg};
ghost use Rattle.phasor.specs.Window.{window_sound};
ghost use Rattle.phasor.specs.Cordic.{step_at, steps, start_at, scaled_of, amplitude_of};
ghost use Rattle.phasor.specs.Lanes.{channel_window, current_window, WindowsSound, amplitudes_of, seconds_of};
ghost use Rattle.phasor.specs.Lanes.{NeverAbove};
ghost use Rattle.phasor.specs.Estimate.{estimate_of, estimate_answer_of};
ghost use Rattle.phasor.specs.Internal.{sums_of, with_slot, SlotFits, StepsFit, AllStepsFit, StartsOf, EndsOf};
ghost use Rattle.phasor.specs.Internal.{AllSound, all_amplitudes};

use frames::codes::sample_sound;
use refusals::Refusal;

// A channel's last eight samples, by slot. That they are sound is no ghost field: `estimate` is for any samples, and a
// relay that is handed in may hold any.
#[repr(C)]
#[derive(Clone, Copy, Debug, PartialEq, Eq)]
pub struct Window {
    pub samples: [i16; 8],
}

// CORDIC's two numbers.
#[derive(Clone, Copy)]
struct Point {
    x: i32,
    y: i32,
}

// The weights for slots 0 to 7: one table in two rows, the form that document 01 names.
const COSINES: [i32; 8] = [16384, 11585, 0, -11585, -16384, -11585, 0, 11585];

const SINES: [i32; 8] = [0, 11585, 16384, 11585, 0, -11585, -16384, -11585];

// Orders: document 01's estimate, and the harmonic that restrains. Numbers and no enum: the weights are the tables' at
// order times slot.
const FUNDAMENTAL: usize = 1;

const SECOND: usize = 2;

// Each of the eight samples is that of some code. All eight are looked at: without an early return the compiler tests
// them at once.
pub fn window_sound(w: [i16; 8]) -> bool
    ensures { result ≡ window_sound w }
{
    let mut ok = true;
    for &sample in &w {
        ok &= sample_sound(sample);
    }
    ok
}

impl Point {
    // Two sums with the term of one slot more: the sample times "weights at slot p times k mod 8 of the tables".
    fn with_slot(self, sample: i16, slot: usize, order: usize) -> Point
        requires { SlotFits self sample slot order }
        ensures { result ≡ with_slot self sample slot order }
    {
        let k = order * slot % 8;
        let s = i32::from(sample);
        Point {
            x: self.x + s * COSINES[k],
            y: self.y + s * SINES[k],
        }
    }

    // Where CORDIC starts: the sizes of the sums.
    fn start(self) -> Point
        requires { (nat_abs self.x < 2 ^ 31) × (nat_abs self.y < 2 ^ 31) }
        ensures { result ≡ start_at self.x self.y }
    {
        Point {
            x: self.x.abs(),
            y: self.y.abs(),
        }
    }

    // Step i of CORDIC: both new values use the old ones, and every shift rounds towards minus infinity.
    fn step(self, i: u64) -> Point
        requires { (i < 16) × (nat_abs self.x < 2 ^ 29) × (nat_abs self.y < 2 ^ 29) }
        ensures { result ≡ step_at i self }
    {
        let x = self.x;
        let y = self.y;
        let sx = x >> i;
        let sy = y >> i;
        if y >= 0 {
            Point {
                x: x + sy,
                y: y - sx,
            }
        } else {
            Point {
                x: x - sy,
                y: y + sx,
            }
        }
    }

    // The sixteen steps. They are compiled into each loop that calls them: else the lanes would not become those of a
    // vector, and a frame would cost twice as much.
    #[inline(always)]
    #[tactic(auto, unfolding(crate::specs::Cordic::steps))]
    fn cordic(self) -> Point
        requires { StepsFit self }
        ensures { result ≡ steps 16 self }
    {
        let mut p = self;
        for i in 0..16 {
            p = p.step(i);
        }
        p
    }
}

impl Window {
    // Re and Im for an order, which is a constant, so that the compiler knows each weight.
    fn sums<const ORDER: usize>(self) -> Point
        requires { (window_sound self.samples ≡ true) × (ORDER ≤ 3) }
        ensures { result ≡ sums_of ORDER self.samples }
    {
        let mut p = Point { x: 0, y: 0 };
        for slot in 0..8 {
            p = p.with_slot(self.samples[slot], slot, ORDER);
        }
        p
    }
}

// x as it ends, scaled to sixteenths of a code.
#[tactic(auto, unfolding(crate::specs::Cordic::scaled_of))]
fn scaled(x: i32) -> u16
    requires { T (non_neg x) × (nat_abs x ≤ 79100000) }
    ensures { result ≡ scaled_of x }
{
    ((i64::from(x) * 39797) >> 28) as u16
}

// The sums of so many windows for an order, one in each lane, and spare lanes of 0.
fn starts<const ORDER: usize, const COUNT: usize, const LANES: usize>(
    windows: [Window; COUNT],
) -> [Point; LANES]
    requires order { (1 ≤ ORDER) × (ORDER ≤ 3) }
    requires lanes { (COUNT ≤ LANES) × (LANES ≤ 8) }
    requires sound { AllSound COUNT windows }
    ensures { StartsOf ORDER (channel_window windows.entry) COUNT result }
{
    let mut sums = [Point { x: 0, y: 0 }; LANES];
    for c in 0..COUNT {
        sums[c] = windows[c].sums::<ORDER>();
    }
    sums
}

// Where x ends, in each lane.
fn ends<const LANES: usize>(sums: [Point; LANES]) -> [i32; LANES]
    requires { AllStepsFit sums }
    ensures { EndsOf sums.entry LANES result }
{
    let mut ends = [0; LANES];
    for c in 0..LANES {
        ends[c] = sums[c].start().cordic().x;
    }
    ends
}

// The amplitudes of so many windows for an order, side by side in lanes. Spare lanes fill the last vector: six windows
// in six lanes would cost twice as much.
fn side_by_side<const ORDER: usize, const COUNT: usize, const LANES: usize>(
    windows: [Window; COUNT],
) -> [u16; COUNT]
    requires order { (1 ≤ ORDER) × (ORDER ≤ 3) }
    requires lanes { (COUNT ≤ LANES) × (LANES ≤ 8) }
    requires sound { AllSound COUNT windows }
    ensures { result ≡ all_amplitudes ORDER COUNT windows.entry }
{
    let ends = ends(starts::<ORDER, COUNT, LANES>(windows));
    let mut amplitudes = [0; COUNT];
    for c in 0..COUNT {
        amplitudes[c] = scaled(ends[c]);
    }
    amplitudes
}

// The amplitudes of six windows of samples -512 to 511.
pub fn amplitudes(windows: [Window; 6]) -> [u16; 6]
    requires { WindowsSound windows }
    ensures value { result ≡ amplitudes_of windows }
    ensures range { NeverAbove result }
{
    side_by_side::<FUNDAMENTAL, 6, 8>(windows)
}

// The amplitudes of the second harmonic of the three currents.
#[tactic(auto, unfolding(lists::specs::Each::table))]
pub fn seconds(windows: [Window; 6]) -> [u16; 3]
    requires { WindowsSound windows }
    ensures { result ≡ seconds_of windows }
{
    side_by_side::<SECOND, 3, 4>([windows[3], windows[4], windows[5]])
}

// The amplitude of one window for an order.
#[tactic(auto, unfolding(lists::specs::Each::table))]
fn amplitude<const ORDER: usize>(samples: [i16; 8]) -> u16
    requires { (window_sound samples ≡ true) × (1 ≤ ORDER) × (ORDER ≤ 3) }
    ensures { result ≡ amplitude_of ORDER samples }
{
    side_by_side::<ORDER, 1, 1>([Window { samples }])[0]
}

// The estimate of one window for an order, in sixteenths of a code: an entry point, for any samples and any order. An
// arm for each order, since a const parameter is known when the crate is compiled.
#[tactic(auto, unfolding(crate::specs::Estimate::estimate_of, crate::specs::Estimate::estimate_refusal))]
pub fn estimate(window: [i16; 8], order: u8) -> Result<u16, Refusal>
    ensures { estimate_answer_of result ≡ estimate_of window order }
{
    if !window_sound(window) {
        return Err(Refusal::BadEstimate);
    }
    match order {
        1 => Ok(amplitude::<1>(window)),
        2 => Ok(amplitude::<2>(window)),
        3 => Ok(amplitude::<3>(window)),
        _ => Err(Refusal::BadEstimate),
    }
}

// What C is answered: the number of an estimate's refusal, 0 where it is accepted, and the amplitude.
#[repr(C)]
#[derive(Clone, Copy, Debug, PartialEq, Eq)]
pub struct EstimateAnswer {
    pub refusal: u8,
    pub amplitude: u16,
}

impl From<Result<u16, Refusal>> for EstimateAnswer {
    ghost from_gives = { λ estimated answer. answer ≡ estimate_answer_of estimated };

    fn from(estimated: Result<u16, Refusal>) -> EstimateAnswer {
        match estimated {
            Ok(amplitude) => EstimateAnswer {
                refusal: refusals::ACCEPTED,
                amplitude,
            },
            Err(refusal) => EstimateAnswer {
                refusal: refusal.into(),
                amplitude: 0,
            },
        }
    }
}
