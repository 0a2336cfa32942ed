// The bench program's lines under restraint levels: each of some stored captures goes to a relay with the bench's
// levels, and with one restraint level on every current. For each a line with its name and that level, then its
// report. The stored output was made by a second implementation.
#![tactic(auto)]

use scenes::lines;
use std::fs::File;
use std::io;
use std::io::Write;
use std::rt::Files;

// Room for each of the captures, in bytes and in frames.
const INPUT: usize = 4096;

const MOST: u16 = 256;

const CELLS: usize = 7 * MOST as usize;

// A line for each of the first frames of the cells, so many, from a fresh relay with this restraint level.
fn show_frames<W: Write>(
    out: &mut W,
    cells: &[u16; CELLS],
    count: usize,
    restraint: u8,
) -> io::Result<()> {
    let mut relay = scenes::bench_relay(scenes::alike_levels(819, 3413, restraint));
    for (n, frame) in (0..MOST).zip(cells.chunks_exact(7).take(count)) {
        let codes = frames::cells::codes_at(frame, 0);
        let answer = relay.frame(codes, (frame[6] % 256) as u8);
        lines::show_frame(out, n, &answer)?;
        relay = answer.relay;
    }
    Ok(())
}

// The report on a capture, from its bytes.
fn show_capture<W: Write>(out: &mut W, bytes: &[u8], restraint: u8) -> io::Result<()> {
    let mut cells = [0u16; CELLS];
    match reader::read(bytes, &mut cells) {
        Ok(count) => {
            show_frames(out, &cells, count, restraint)?;
            writeln!(out, "frames {count}")
        }
        Err(refusal) => writeln!(out, "refused {refusal}"),
    }
}

// One capture's name and restraint level, and its report.
fn show<W: Write>(rt: &impl Files, out: &mut W, path: &str, restraint: u8) -> io::Result<()> {
    let mut bytes = [0u8; INPUT];
    let n = input::read_all(&mut File::open(rt, path)?, &mut bytes).unwrap_or_else(|cut| cut.count);
    writeln!(out, "{path} restraint {restraint}")?;
    show_capture(out, &bytes[..n], restraint)
}

// Magnetising current trips a relay without restraint and no other; a fault trips one with restraint too.
fn main(rt: HostRuntime) -> io::Result<()> {
    let mut out = io::writer(&rt);
    for (path, restraint) in [
        ("inrush.p6k", 0),
        ("inrush.p6k", 15),
        ("inrush-then-fault.p6k", 15),
        ("over-3.p6k", 15),
    ] {
        show(&rt, &mut out, path, restraint)?;
    }
    Ok(())
}
