// The bench figures of document 01 that are not theorems, a line for each: the stored output has the
// document's numbers. Then the five lines of the checklist, `ok` where a check passes.
#![tactic(auto)]

use refusals::Refusal;
use relay::{FrameAnswer, Relay};
use scenes::{ALL_ENABLED, QUIET, WAVE};
use std::io::Write;
use std::{array, io};

// The highest level, as document 01 has it and not the relay's own constant: by a rule of the project what judges a
// number does not take it from what is judged.
const MOST_LEVEL: u16 = 10700;

// How many frames are run where no latch is expected: those of the longest capture.
const FRAMES: u16 = frames::MOST_FRAMES as u16;

// The frames that are saved and loaded, and their cells.
const SAVED: u16 = 16;

const CELLS: usize = 7 * SAVED as usize;

// A check's name, and whether it passes.
fn show_check<W: Write>(out: &mut W, name: &str, passes: bool) -> io::Result<()> {
    writeln!(out, "{name}: {}", if passes { "ok" } else { "WRONG" })
}

// A relay with equal drop levels and equal pickup levels.
fn made(drop: u16, pickup: u16) -> Relay {
    scenes::bench_relay(scenes::alike_levels(drop, pickup, 0))
}

// Hands the relay the frames `first` to `last`, with the wave on each channel that `waving` names by its bit; the last
// one's answer.
fn play(relay: Relay, first: u16, last: u16, waving: u8, rest: u16) -> FrameAnswer {
    let mut before = relay;
    for n in first..last {
        before = before
            .frame(scenes::codes_in(n, waving, rest), ALL_ENABLED)
            .relay;
    }
    before.frame(scenes::codes_in(last, waving, rest), ALL_ENABLED)
}

// The frame that turns channel 3's over latch on, with the wave steady on it from frame 0 and the
// other inputs quiet.
fn over_frame(pickup: u16) -> Option<u16> {
    let mut relay = made(1, pickup);
    for n in 0..FRAMES {
        relay = relay
            .frame(scenes::codes_in(n, 8, QUIET), ALL_ENABLED)
            .relay;
        if relay.channels[3].over_latch {
            return Some(n);
        }
    }
    None
}

// The output byte of frame n, with code 512 throughout: bit c is channel c's loss latch.
fn loss_output(n: u16) -> u8 {
    play(made(1, MOST_LEVEL), 0, n, 0, QUIET).output
}

// The refusal that a frame with this code on channel 5 answers: a number, since the relay's answer, which C gets, has
// one.
fn code_refusal(code: u16) -> u8 {
    made(1, 1)
        .frame([QUIET, QUIET, QUIET, QUIET, QUIET, code], ALL_ENABLED)
        .refusal
}

// After eight frames the amplitude is 1603 on each channel that `waving` names by its bit, and 0 elsewhere.
fn shows_on(waving: u8) -> bool {
    play(made(1, 1), 0, 7, waving, QUIET).amplitudes == scenes::by_channel(waving, 1603, 0)
}

// Each channel by itself.
fn channel_by_channel() -> bool {
    (0..6u8).all(|c| shows_on(1 << c))
}

// Eight samples 100 on every channel: no amplitude.
fn direct_current() -> bool {
    play(made(1, 1), 0, 7, 0, 612).amplitudes == [0; 6]
}

// Phases 3 and 4 are tripped; a reset of 3 leaves 4 tripped, and 3 trips again after four frames.
fn reset_one_phase() -> bool {
    let tripped = play(made(1, 1603), 0, 79, 24, QUIET);
    let reset = tripped.relay.reset(8);
    let after = play(reset.relay, 80, 82, 24, QUIET);
    let again = play(after.relay, 83, 83, 24, QUIET);
    (tripped.output == 24) & (reset.refusal == 0) & (after.output == 16) & (again.output == 24)
}

// The cells of the frames that are saved, with the wave on channel 3: by each cell's place, and not by `put_frame`, by
// which the reader puts them.
fn filled() -> [u16; CELLS] {
    array::from_fn(|i| match i % 7 {
        6 => ALL_ENABLED.into(),
        3 => WAVE[i / 7 % 8],
        _ => QUIET,
    })
}

// Whether the frames written as a capture and read back give the same cells.
fn save_and_load() -> Result<bool, Refusal> {
    let cells = filled();
    let mut bytes = [0u8; 256];
    let n = writer::write(&cells, &mut bytes)?;
    let Some(capture) = bytes.get(..n) else {
        return Ok(false);
    };
    let mut back = [0u16; CELLS];
    let count = reader::read(capture, &mut back)?;
    Ok(count == usize::from(SAVED) && cells == back)
}

// The figures, then the checklist.
fn main(rt: HostRuntime) -> io::Result<()> {
    let mut out = io::writer(&rt);
    let at_pickup = over_frame(1603);
    let below_pickup = over_frame(1604);
    writeln!(
        out,
        "wave on channel 3, pickup 1603, over latch in frame {}",
        at_pickup.unwrap_or(FRAMES)
    )?;
    writeln!(
        out,
        "wave on channel 3, pickup 1604, no over latch before frame {}",
        below_pickup.unwrap_or(FRAMES)
    )?;
    for n in [86, 87] {
        writeln!(
            out,
            "code 512, drop 1, output of frame {n}: {}",
            loss_output(n)
        )?;
    }
    for code in [1023, 1024] {
        writeln!(
            out,
            "a frame with code {code} answers refusal {}",
            code_refusal(code)
        )?;
    }
    show_check(&mut out, "channel by channel", channel_by_channel())?;
    show_check(
        &mut out,
        "direct current on a quiet input",
        direct_current(),
    )?;
    show_check(
        &mut out,
        "just over and just under pickup",
        at_pickup == Some(75) && below_pickup.is_none(),
    )?;
    show_check(
        &mut out,
        "reset one phase while another is tripped",
        reset_one_phase(),
    )?;
    show_check(&mut out, "save and load", save_and_load() == Ok(true))
}
