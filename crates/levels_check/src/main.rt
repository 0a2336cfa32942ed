// New levels while the relay runs (document 02, Paper 6): twelve short scenes, each with a relay of its own. From frame
// 72 on a line for each frame: its number, the loss runs, the over runs of the currents, and the output byte; a line
// for each change. The second implementation gives the same text, which the gate compares.
#![tactic(auto)]

use relay::{Levels, Settings};
use scenes::scene::Scene;
use scenes::scene::Step::{Change, Feed};
use scenes::{BENCH_LENGTHS, STILL, WAVE, WAVE_LEVELS};
use std::io;

// What each scene begins with.
const SETTINGS: Settings = Settings {
    levels: WAVE_LEVELS,
    lengths: BENCH_LENGTHS,
};

// The wave no longer reaches the pickups.
const RAISED_PICKUPS: Levels = Levels {
    pickup: [1604; 3],
    ..WAVE_LEVELS
};

// Over runs first, then loss runs.
const SCENES: [Scene; 12] = [
    // The wave trips the currents in frame 75.
    Scene {
        name: "unchanged",
        settings: SETTINGS,
        steps: &[Feed(WAVE, 80)],
    },
    // A dispatcher raises the pickups one frame before the trip. The over runs become 0, and the wave no longer feeds
    // them: nothing trips.
    Scene {
        name: "summer",
        settings: SETTINGS,
        steps: &[Feed(WAVE, 75), Change(RAISED_PICKUPS), Feed(WAVE, 80)],
    },
    // Lowered again at once: the runs begin anew all the same, and the trip comes three frames later.
    Scene {
        name: "raised and lowered",
        settings: SETTINGS,
        steps: &[
            Feed(WAVE, 75),
            Change(RAISED_PICKUPS),
            Change(WAVE_LEVELS),
            Feed(WAVE, 80),
        ],
    },
    // A change before any run has begun takes no frame away, for the age stays.
    Scene {
        name: "before the run",
        settings: SETTINGS,
        steps: &[
            Feed(WAVE, 72),
            Change(Levels {
                pickup: [1602; 3],
                ..WAVE_LEVELS
            }),
            Feed(WAVE, 80),
        ],
    },
    // Latches stay on under levels that the wave does not meet.
    Scene {
        name: "latched",
        settings: SETTINGS,
        steps: &[Feed(WAVE, 76), Change(RAISED_PICKUPS), Feed(WAVE, 80)],
    },
    // A drop is not an over run's own level.
    Scene {
        name: "drops only",
        settings: SETTINGS,
        steps: &[
            Feed(WAVE, 75),
            Change(Levels {
                drop: [2; 6],
                ..WAVE_LEVELS
            }),
            Feed(WAVE, 80),
        ],
    },
    // One current's pickup is not another's: only channel 4 trips later.
    Scene {
        name: "one pickup",
        settings: SETTINGS,
        steps: &[
            Feed(WAVE, 75),
            Change(Levels {
                pickup: [1603, 1602, 1603],
                ..WAVE_LEVELS
            }),
            Feed(WAVE, 80),
        ],
    },
    // A restraint is part of the over run's own level, although the wave is unrestrained under both.
    Scene {
        name: "one restraint",
        settings: SETTINGS,
        steps: &[
            Feed(WAVE, 75),
            Change(Levels {
                restraint: [0, 0, 100],
                ..WAVE_LEVELS
            }),
            Feed(WAVE, 80),
        ],
    },
    // A refused change leaves all as it was, and so does a change to equal levels.
    Scene {
        name: "refused",
        settings: SETTINGS,
        steps: &[
            Feed(WAVE, 75),
            Change(Levels {
                pickup: [1603, 1603, 0],
                ..WAVE_LEVELS
            }),
            Change(Levels {
                drop: [1, 1, 1, 1, 1, 10701],
                ..WAVE_LEVELS
            }),
            Change(Levels {
                restraint: [0, 0, 101],
                ..WAVE_LEVELS
            }),
            Change(Levels {
                pickup: [10701, 1603, 1603],
                restraint: [255, 0, 0],
                ..WAVE_LEVELS
            }),
            Change(WAVE_LEVELS),
            Feed(WAVE, 80),
        ],
    },
    // Channel 0 begins its loss run anew, and trips 15 frames after the others.
    Scene {
        name: "loss",
        settings: SETTINGS,
        steps: &[
            Feed(STILL, 87),
            Change(Levels {
                drop: [2, 1, 1, 1, 1, 1],
                ..WAVE_LEVELS
            }),
            Feed(STILL, 104),
        ],
    },
    // Pickups and restraints are not a loss run's own level.
    Scene {
        name: "loss kept",
        settings: SETTINGS,
        steps: &[
            Feed(STILL, 87),
            Change(Levels {
                pickup: [1604; 3],
                restraint: [15; 3],
                ..WAVE_LEVELS
            }),
            Feed(STILL, 88),
        ],
    },
    // Raised and lowered again at once, all loss runs begin anew.
    Scene {
        name: "loss raised and lowered",
        settings: SETTINGS,
        steps: &[
            Feed(STILL, 87),
            Change(Levels {
                drop: [2; 6],
                ..WAVE_LEVELS
            }),
            Change(WAVE_LEVELS),
            Feed(STILL, 104),
        ],
    },
];

fn main(rt: HostRuntime) -> io::Result<()> {
    let mut out = io::writer(&rt);
    for scene in &SCENES {
        scene.play(&mut out)?;
    }
    Ok(())
}
