// Generated waves with a second harmonic, played to relays with twelve settings of their restraint levels. For each
// setting a line with the three levels, a line as in the bench program for each frame whose output byte is another
// than before, and the sum of all that was answered. The stored output was made by a second implementation.
#![tactic(auto)]

ghost use Rattle.std.specs.Prelude.{◌≤ℤ◌, pos, neg_ℤ};

use relay::{FrameAnswer, Levels, Relay};
use scenes::{ALL_ENABLED, generator, lines};
use std::io::Write;
use std::{array, io};

// Hundredths of a peak by slot: of the fundamental, and of the second harmonic. Two rows, as phasor's weights are:
// pairs would be no plainer.
const FIRST: [i8; 8] = [100, 71, 0, -71, -100, -71, 0, 71];

const SECOND: [i8; 8] = [100, 0, -100, 0, 100, 0, -100, 0];

// The restraint levels that are tried.
const RESTRAINTS: [u8; 12] = [0, 1, 100, 15, 37, 50, 7, 99, 20, 33, 64, 2];

// So many frames for each setting.
const FRAMES: u16 = 200;

type Generator = generator::Generator<1664525, 1013904223>;

// Hundredths of a peak, rounded towards 0.
fn part(peak: u16, hundredths: i8) -> i32
    ensures least { neg_ℤ (pos 100000) ≤ℤ result }
    ensures most { result ≤ℤ pos 100000 }
{
    i32::from(peak) * i32::from(hundredths) / 100
}

// A channel's peaks: its fundamental's, and its second harmonic's, at most half as high.
#[derive(Clone, Copy)]
struct Peaks {
    first: u16,
    second: u16,
}

impl Peaks {
    fn draw(generator: &mut Generator) -> Peaks {
        let first = 20 + generator.draw() % 230;
        let second = generator.draw() % (first / 2 + 1);
        Peaks { first, second }
    }

    // The code in a slot.
    fn code(self, slot: usize) -> u16 {
        let k = slot % 8;
        let sample = part(self.first, FIRST[k]) + part(self.second, SECOND[k]);
        (512 + sample).rem_euclid(65536) as u16
    }
}

// Channel 3 is disabled in each fiftieth frame.
fn enable_in(n: u16) -> u8 {
    if n % 50 == 49 { 119 } else { ALL_ENABLED }
}

// Channels 3 and 4 are reset after frame 150.
fn reset_after(relay: Relay, n: u16) -> Relay {
    if n == 150 {
        relay.reset(24).relay
    } else {
        relay
    }
}

// The sum with a frame's amplitudes and 65,536 times its output byte. relay_check's has another width and weight: with
// both as parameters it would be no plainer.
fn total(before: u32, answer: &FrameAnswer) -> u32 {
    let mut sum = before.wrapping_add(65536 * u32::from(answer.output));
    for amplitude in answer.amplitudes {
        sum = sum.wrapping_add(u32::from(amplitude));
    }
    sum
}

// The frames of one setting, and their sum. The peaks are drawn anew every forty frames; each channel is a slot ahead
// of the one before it.
fn play_frames<W: Write>(out: &mut W, levels: Levels, generator: &mut Generator) -> io::Result<()> {
    let mut relay = scenes::bench_relay(levels);
    let mut peaks = [Peaks {
        first: 0,
        second: 0,
    }; 6];
    let mut output: u8 = 0;
    let mut sum: u32 = 0;
    for n in 0..FRAMES {
        if n % 40 == 0 {
            peaks = array::from_fn(|_| Peaks::draw(generator));
        }
        let codes = array::from_fn(|c| peaks[c].code(usize::from(n % 8) + c));
        let answer = relay.frame(codes, enable_in(n));
        if answer.output != output {
            lines::show_frame(out, n, &answer)?;
        }
        output = answer.output;
        sum = total(sum, &answer);
        relay = reset_after(answer.relay, n);
    }
    writeln!(out, "sum {sum}")
}

// Setting k: one level for all drops, a pickup and a restraint level for each current.
fn play_setting<W: Write>(out: &mut W, k: u8, generator: &mut Generator) -> io::Result<()> {
    let restraint = array::from_fn(|current| RESTRAINTS[(usize::from(k) + 5 * current) % 12]);
    writeln!(
        out,
        "setting {k}: {} {} {}",
        restraint[0], restraint[1], restraint[2]
    )?;
    let drop = 1 + generator.draw() % 300;
    let pickup = array::from_fn(|_| 400 + generator.draw() % 2500);
    let levels = Levels {
        drop: [drop; 6],
        pickup,
        restraint,
    };
    play_frames(out, levels, generator)
}

// Each setting goes on where the generator stands.
fn main(rt: HostRuntime) -> io::Result<()> {
    let mut out = io::writer(&rt);
    let mut generator = Generator { state: 1 };
    for k in 0..RESTRAINTS.len() as u8 {
        play_setting(&mut out, k, &mut generator)?;
    }
    Ok(())
}
