// Runs the relay over frames of a small generator's codes and prints the sum of all amplitudes and output bytes: 64
// frames for each byte on standard input. Where the first byte is 128 or more, all is enabled throughout, each pickup
// is 1, and what the byte is above 128 is each current's restraint level. The stored output was made by the second
// implementation; reference/benchmark runs it on other inputs.
#![tactic(auto)]

ghost use Rattle.std.specs.Prelude.{◌<◌};

use relay::Levels;
use scenes::generator::Generator;
use std::{array, io};

// So many bytes are read at most.
const MOST_INPUT: usize = 4096;

// The sum of a frame's amplitudes and output byte.
fn total(amplitudes: [u16; 6], output: u8) -> u64 {
    let mut sum = u64::from(output);
    for amplitude in amplitudes {
        sum = sum.wrapping_add(u64::from(amplitude));
    }
    sum
}

// The levels that the first byte asks for. Two kinds by an `if`, here and in `hold_by`: a table of two is no plainer.
fn levels_by(first: u8) -> Levels {
    if first < 128 {
        return scenes::alike_levels(819, 3413, 0);
    }
    scenes::alike_levels(819, 1, first - 128)
}

// Each mask stands for 2 to the power of this many frames: 64, or more than there are.
fn hold_by(first: u8) -> u64
    ensures { result < 64 }
{
    if first < 128 { 6 } else { 63 }
}

// All is enabled at first, then one mask after the other.
fn enable_at(n: u64, hold: u64) -> u8
    requires { hold < 64 }
{
    (127 - (n >> hold) % 64) as u8
}

// One call of `frame`, so that it is compiled into the loop. Each code is ten bits of a drawn number.
fn run(frames: u64, first: u8) -> u64 {
    let hold = hold_by(first);
    let mut generator = Generator::<1103515245, 12345> { state: 1 };
    let mut relay = scenes::bench_relay(levels_by(first));
    let mut sum: u64 = 0;
    for n in 0..frames {
        let codes = array::from_fn(|_| generator.draw() % 1024);
        let answer = relay.frame(codes, enable_at(n, hold));
        relay = answer.relay;
        sum = sum.wrapping_add(total(answer.amplitudes, answer.output));
    }
    sum
}

// 64 frames for each byte of the input, and their sum.
fn main(rt: HostRuntime) -> io::Result<()> {
    let mut bytes = [0u8; MOST_INPUT];
    let got = input::read_all(&mut rt.stdin(), &mut bytes).unwrap_or_else(|cut| cut.count);
    println!(rt; "{}", run(64 * got as u64, bytes[0]))
}
