// A story of two phases that trip, one of which is reset while the other stays tripped: a line for
// each call. The stored output was made by a second implementation.
#![tactic(auto)]

use scenes::{ALL_ENABLED, QUIET, WAVE_LEVELS, lines};
use std::io;
use std::io::Write;

// So many frames are run.
const FRAMES: u16 = 130;

// Channel 3 is disabled for four frames.
fn enable_in(n: u16) -> u8 {
    match n {
        100..=103 => 119,
        _ => ALL_ENABLED,
    }
}

// The mask of the reset that follows frame n: channel 3, one that is refused, none, all.
fn mask_after(n: u16) -> Option<u8> {
    match n {
        79 => Some(8),
        90 => Some(72),
        95 => Some(0),
        110 => Some(63),
        _ => None,
    }
}

// Each frame, with the wave on channels 3 and 4, and the reset that follows it.
fn main(rt: HostRuntime) -> io::Result<()> {
    let mut out = io::writer(&rt);
    let mut relay = scenes::bench_relay(WAVE_LEVELS);
    for n in 0..FRAMES {
        let answer = relay.frame(scenes::codes_in(n, 24, QUIET), enable_in(n));
        lines::show_frame(&mut out, n, &answer)?;
        relay = answer.relay;
        if let Some(mask) = mask_after(n) {
            write!(&mut out, "reset ")?;
            relay = lines::show_reset(&mut out, relay, mask)?;
        }
    }
    Ok(())
}
