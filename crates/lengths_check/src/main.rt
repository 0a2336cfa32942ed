// Run lengths from the settings (document 02, Paper 9). First a line for each loss length from 1 to 24, beside an over
// length that falls from 24 to 1: the frame whose latch goes on and the run at the end. Then a line for each of some
// lengths that a relay is asked for, in range and out of it: the refusal and the lengths of the relay handed back. Then
// short scenes, each with a relay of its own, and lines as levels_check has them. The second implementation gives the
// same text, which the gate compares.
#![tactic(auto)]

use relay::{Channel, Lengths, Levels, Relay, Settings};
use scenes::scene::Step::{Change, Feed};
use scenes::scene::{Scene, Step};
use scenes::{ALL_ENABLED, STILL, WAVE, WAVE_LEVELS};
use std::io;
use std::io::Write;

// The lowest code. A window that holds one such sample, and no signal else, is above a pickup of 2000.
const BAD: [u16; 8] = [0; 8];

// The longest run, as document 02 has it and not the relay's own constant: by a rule of the project what judges a
// number does not take it from what is judged.
const MOST_LENGTH: u8 = 24;

// So many frames are fed where a latch is waited for: enough for the longest run, and to see that it grows no further.
const WAITED: u16 = 128;

// These levels with these lengths.
fn settings(levels: Levels, loss: u8, over: u8) -> Settings {
    Settings {
        levels,
        lengths: Lengths { loss, over },
    }
}

// The wave's levels but for equal pickups.
fn picking_up_at(pickup: u16) -> Levels {
    Levels {
        pickup: [pickup; 3],
        ..WAVE_LEVELS
    }
}

// Of a channel's two latches the one that is watched, with its run.
#[derive(Clone, Copy)]
enum Watched {
    Loss,
    Over,
}

impl Watched {
    fn run(self, channel: &Channel) -> u8 {
        match self {
            Watched::Loss => channel.loss_run,
            Watched::Over => channel.over_run,
        }
    }

    fn latch(self, channel: &Channel) -> bool {
        match self {
            Watched::Loss => channel.loss_latch,
            Watched::Over => channel.over_latch,
        }
    }
}

// A relay of its own, fed one wave: the frame that turns channel 5's latch on, WAITED where none does, and its run at
// the end.
fn watch<W: Write>(
    out: &mut W,
    settings: Settings,
    wave: &[u16; 8],
    watched: Watched,
) -> io::Result<()> {
    let mut relay = Relay::fresh(settings).relay;
    let mut first = None;
    for n in 0..WAITED {
        relay = relay
            .frame([scenes::code_in(wave, n); 6], ALL_ENABLED)
            .relay;
        if first.is_none() && watched.latch(&relay.channels[5]) {
            first = Some(n);
        }
    }
    let first = first.unwrap_or(WAITED);
    write!(out, " {first} {}", watched.run(&relay.channels[5]))
}

// One pair of lengths.
fn sweep_line<W: Write>(out: &mut W, loss: u8, over: u8) -> io::Result<()> {
    let settings = settings(WAVE_LEVELS, loss, over);
    write!(out, "{loss} {over} loss")?;
    watch(out, settings, &STILL, Watched::Loss)?;
    write!(out, " over")?;
    watch(out, settings, &WAVE, Watched::Over)?;
    writeln!(out)
}

// Every length of either kind, beside another of the other.
fn sweep<W: Write>(out: &mut W) -> io::Result<()> {
    writeln!(out, "sweep")?;
    for loss in 1..=MOST_LENGTH {
        sweep_line(out, loss, MOST_LENGTH + 1 - loss)?;
    }
    Ok(())
}

// The lengths that are asked for, the refusal, and the lengths of the relay handed back.
fn ask<W: Write>(out: &mut W, settings: Settings) -> io::Result<()> {
    let asked = settings.lengths;
    let made = Relay::fresh(settings);
    let given = made.relay.settings.lengths;
    writeln!(
        out,
        "{} {} {} {} {}",
        asked.loss, asked.over, made.refusal, given.loss, given.over
    )
}

// Both ends of the range and what lies outside; then a bad level (1) or restraint (20) beside a bad length (21): the
// first check that fails gives the number.
fn fresh<W: Write>(out: &mut W) -> io::Result<()> {
    writeln!(out, "fresh")?;
    for (loss, over) in [
        (1, 1),
        (24, 24),
        (16, 4),
        (4, 16),
        (0, 4),
        (16, 0),
        (25, 4),
        (16, 25),
        (255, 4),
        (16, 255),
        (0, 25),
    ] {
        ask(out, settings(WAVE_LEVELS, loss, over))?;
    }
    let low_drop = Levels {
        drop: [1, 1, 1, 1, 1, 0],
        ..WAVE_LEVELS
    };
    ask(out, settings(low_drop, 0, 4))?;
    let high_pickup = Levels {
        pickup: [1603, 1603, 10701],
        ..WAVE_LEVELS
    };
    ask(out, settings(high_pickup, 25, 4))?;
    let high_restraint = Levels {
        restraint: [0, 0, 101],
        ..WAVE_LEVELS
    };
    ask(out, settings(high_restraint, 16, 0))?;
    let high_drop_and_restraint = Levels {
        drop: [10701, 1, 1, 1, 1, 1],
        restraint: [255, 0, 0],
        ..WAVE_LEVELS
    };
    ask(out, settings(high_drop_and_restraint, 16, 25))
}

// One bad sample, which is in the window for eight frames.
const ONE_BAD_SAMPLE: [Step; 3] = [Feed(STILL, 80), Feed(BAD, 81), Feed(STILL, 91)];

// The table, the refusals, the scenes.
fn main(rt: HostRuntime) -> io::Result<()> {
    let mut out = io::writer(&rt);
    sweep(&mut out)?;
    fresh(&mut out)?;
    for scene in [
        // The first counted frame that qualifies turns a latch on: over at once, loss once the wave has left the
        // window.
        Scene {
            name: "one and one",
            settings: settings(WAVE_LEVELS, 1, 1),
            steps: &[Feed(WAVE, 74), Feed(STILL, 84)],
        },
        // The currents trip in frame 95, after 24 counted frames, and their runs stay at 24.
        Scene {
            name: "all twenty-four",
            settings: settings(WAVE_LEVELS, 24, 24),
            steps: &[Feed(WAVE, 98)],
        },
        // Raised pickups leave the loss runs one frame before the trip, and the lengths that the relay was made
        // with.
        Scene {
            name: "loss kept",
            settings: settings(WAVE_LEVELS, 20, 6),
            steps: &[
                Feed(STILL, 91),
                Change(picking_up_at(1604)),
                Feed(STILL, 94),
            ],
        },
        // Lowered pickups begin the over runs anew one frame before the trip: six more frames.
        Scene {
            name: "over anew",
            settings: settings(WAVE_LEVELS, 20, 6),
            steps: &[Feed(WAVE, 77), Change(picking_up_at(1602)), Feed(WAVE, 85)],
        },
        // An over length of eight trips on one bad sample, and nine does not.
        Scene {
            name: "one bad sample, eight",
            settings: settings(picking_up_at(2000), 9, 8),
            steps: &ONE_BAD_SAMPLE,
        },
        Scene {
            name: "one bad sample, nine",
            settings: settings(picking_up_at(2000), 9, 9),
            steps: &ONE_BAD_SAMPLE,
        },
    ] {
        scene.play(&mut out)?;
    }
    Ok(())
}
