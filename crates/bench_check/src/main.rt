// The bench program's work on several stored captures: for each its name, then its report. The
// stored output was made by a second implementation.
#![tactic(auto)]

use std::fs::File;
use std::io;
use std::rt::Files;

// Levels, latches, settling after the device switch, refusals, and the longest capture.
const CAPTURES: [&str; 19] = [
    "level-3412.p6k",
    "level-3413.p6k",
    "pickup-3412-3413-3414.p6k",
    "pickup-3413-3414-3412.p6k",
    "pickup-3414-3412-3413.p6k",
    "drop-818-819-820.p6k",
    "drop-819-820-818.p6k",
    "drop-820-818-819.p6k",
    "over-3.p6k",
    "loss-late-0.p6k",
    "disabled-and-back-4.p6k",
    "settling.p6k",
    "6-mark-1-37.p6k",
    "7-change-0-0-80-00.p6k",
    "8-last-byte-missing.p6k",
    "9-enable-5-80.p6k",
    "order-9-change-before-7.p6k",
    "10-tail-ff-1.p6k",
    "longest.p6k",
];

// One capture's name and its report.
fn show(rt: &(impl Files + Print), path: &str) -> io::Result<()> {
    let mut bytes = [0u8; report::INPUT];
    let n = input::read_all(&mut File::open(rt, path)?, &mut bytes).unwrap_or_else(|cut| cut.count);
    rt.println(path)?;
    let mut text = [0u8; report::ROOM];
    let m = report::report(&bytes[..n], &mut text);
    rt.write_all(&text[..m])
}

fn main(rt: HostRuntime) -> io::Result<()> {
    for path in CAPTURES {
        show(&rt, path)?;
    }
    Ok(())
}
