// What the check programs share: the waves that they feed, a relay with the bench's run lengths, a generator of
// numbers, the lines that they print, and scenes played to a relay. No entry point stands here.
#![tactic(auto)]

ghost use Rattle.std.specs.Prelude.{◌≡◌, ◌%◌, ◌<◌, length, slice_index};
ghost use Rattle.relay.specs.Relay.{fresh_of};
ghost use Rattle.scenes.specs.Scenes.{alike_levels, bench_settings, by_channel};

use frames::bits::bit;
use relay::{Lengths, Levels, Relay, Settings};
use std::array;

pub mod generator; // generator.rt: numbers from a seed
pub mod lines; // lines.rt: the lines that several programs print
pub mod scene; // scene.rt: waves and new levels, one after the other

// 100, 71, 0, −71, −100, −71, 0, 71 as codes, from slot 0: its amplitude is 1603.
pub const WAVE: [u16; 8] = [612, 583, 512, 441, 412, 441, 512, 583];

// The code of a sample of 0.
pub const QUIET: u16 = frames::MIDDLE_CODE;

// No signal: its amplitude is 0.
pub const STILL: [u16; 8] = [QUIET; 8];

// Bits 0 to 6. The generator has the byte as its own: no crate that is checked rests on this one.
pub const ALL_ENABLED: u8 = 127;

// The frames of full runs: "the bench program and the bench figures keep 16 and 4" (document 02, Paper 9). The report
// has the same pair of its own: by a rule of the project what judges a number does not take it from what is judged.
pub const BENCH_LENGTHS: Lengths = Lengths { loss: 16, over: 4 };

// The wave is at each pickup, and only no signal is below a drop.
pub const WAVE_LEVELS: Levels = Levels {
    drop: [1; 6],
    pickup: [1603; 3],
    restraint: [0; 3],
};

// The code of a wave in frame n.
pub fn code_in(wave: &[u16; 8], n: u16) -> u16
    ensures { result ≡ slice_index wave.now (n % 8) }
{
    wave[usize::from(n % 8)]
}

// For each channel whose bit is 1 in the mask the first, for each other the second.
pub fn by_channel(mask: u8, named: u16, other: u16) -> [u16; 6]
    ensures { result ≡ by_channel mask named other }
{
    array::from_fn(|c| if bit(mask, c) { named } else { other })
}

// Six codes of frame n: the wave on each channel that the mask names, `rest` on the others.
pub fn codes_in(n: u16, waving: u8, rest: u16) -> [u16; 6]
    ensures { result ≡ by_channel waving (slice_index WAVE (n % 8)) rest }
{
    by_channel(waving, code_in(&WAVE, n), rest)
}

// The same drop on every channel, the same pickup and the same restraint on every current.
pub fn alike_levels(drop: u16, pickup: u16, restraint: u8) -> Levels
    ensures { result ≡ alike_levels drop pickup restraint }
{
    Levels {
        drop: [drop; 6],
        pickup: [pickup; 3],
        restraint: [restraint; 3],
    }
}

// A fresh relay with these levels and the bench's run lengths.
pub fn bench_relay(levels: Levels) -> Relay
    ensures { result ≡ (fresh_of (bench_settings levels)).relay }
{
    Relay::fresh(Settings {
        levels,
        lengths: BENCH_LENGTHS,
    })
    .relay
}
