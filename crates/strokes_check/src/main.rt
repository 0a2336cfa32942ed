// Two phases have tripped and are reset one after the other, in both orders, and at once: the program prints that the
// relays are equal. Then what is not equal, and every pair of masks. The stored output was made by a second
// implementation.
#![tactic(auto)]

ghost use Rattle.std.specs.Prelude.{◌≤◌, ◌<◌};

use relay::{FrameAnswer, Relay};
use scenes::{ALL_ENABLED, QUIET, WAVE_LEVELS, lines};
use std::io;
use std::io::Write;

// The strokes follow this frame: every channel has a full run and a latch.
const LAST: u16 = 89;

// The pairs of masks, of 64 each.
const PAIRS: u16 = 4096;

// ---- calls

// The relay after a reset.
fn pressed(relay: Relay, mask: u8) -> Relay {
    relay.reset(mask).relay
}

// Frame n, with the wave on channels 3 and 4.
fn fed(relay: Relay, n: u16) -> FrameAnswer {
    relay.frame(scenes::codes_in(n, 24, QUIET), ALL_ENABLED)
}

// Frame n and its line, as in the bench program.
fn show_frame<W: Write>(out: &mut W, relay: Relay, n: u16) -> io::Result<Relay> {
    let answer = fed(relay, n);
    lines::show_frame(out, n, &answer)?;
    Ok(answer.relay)
}

// The relay before frame LAST.
fn begun() -> Relay {
    let mut relay = scenes::bench_relay(WAVE_LEVELS);
    for n in 0..LAST {
        relay = fed(relay, n).relay;
    }
    relay
}

// ---- relays that differ in one field

// 1 where a relay with one field altered is another relay, else 0: a number, since these are added up.
fn differs<F: FnOnce(&mut Relay)>(relay: &Relay, alter: F) -> u16
    requires { F.IsAlwaysCallable alter }
    ensures { result ≤ 1 }
{
    let mut altered = *relay;
    alter(&mut altered);
    u16::from(altered != *relay)
}

// How many fields of a channel make another relay.
fn channel_fields(relay: &Relay, c: usize) -> u16
    requires { c < 6 }
    ensures { result ≤ 12 }
{
    let mut different = 0;
    for k in 0..8usize {
        different += differs(relay, |r| r.channels[c].samples[k] = 200);
    }
    different += differs(relay, |r| r.channels[c].loss_run = 1);
    different += differs(relay, |r| r.channels[c].over_run = 1);
    different += differs(
        relay,
        |r| r.channels[c].loss_latch = !r.channels[c].loss_latch,
    );
    different += differs(
        relay,
        |r| r.channels[c].over_latch = !r.channels[c].over_latch,
    );
    different
}

// How many levels and lengths do.
fn settings_fields(relay: &Relay) -> u16
    ensures { result ≤ 14 }
{
    let mut different = 0;
    for c in 0..6usize {
        different += differs(relay, |r| r.settings.levels.drop[c] = 2);
    }
    for c in 0..3usize {
        different += differs(relay, |r| r.settings.levels.pickup[c] = 2);
        different += differs(relay, |r| r.settings.levels.restraint[c] = 2);
    }
    different += differs(relay, |r| r.settings.lengths.loss = 2);
    different += differs(relay, |r| r.settings.lengths.over = 2);
    different
}

// Each field altered alone: how many make a relay that is different.
fn show_fields<W: Write>(out: &mut W, relay: &Relay) -> io::Result<()> {
    let mut different = settings_fields(relay);
    for c in 0..6usize {
        different += channel_fields(relay, c);
    }
    different += differs(relay, |r| r.age = 71);
    different += differs(relay, |r| r.slot = 7);
    different += differs(relay, |r| r.device_on = !r.device_on);
    writeln!(
        out,
        "one field altered, and not: different in {different} of 89 fields"
    )
}

// ---- what is printed

fn show_equal<W: Write>(out: &mut W, name: &str, a: Relay, b: Relay) -> io::Result<()> {
    writeln!(
        out,
        "{name}: {}",
        if a == b { "equal" } else { "different" }
    )
}

// Whether a then b, b then a and both at once are equal.
fn equal_at_once(relay: Relay, a: u8, b: u8) -> bool {
    let union = pressed(relay, strokes::union(a, b));
    pressed(pressed(relay, a), b) == union && pressed(pressed(relay, b), a) == union
}

// Whether a then b is a alone.
fn equal_to_first(relay: Relay, a: u8, b: u8) -> bool {
    let first = pressed(relay, a);
    pressed(first, b) == first
}

// Each pair of masks: how many are equal.
fn show_pairs<W: Write>(out: &mut W, relay: Relay) -> io::Result<()> {
    let at_once = (0..PAIRS)
        .filter(|pair| equal_at_once(relay, (pair / 64 % 64) as u8, (pair % 64) as u8))
        .count();
    let to_first = (0..PAIRS)
        .filter(|pair| equal_to_first(relay, (pair / 64 % 64) as u8, (pair % 64) as u8))
        .count();
    writeln!(
        out,
        "a then b, b then a, and both at once are equal: {at_once} of {PAIRS} pairs of masks"
    )?;
    writeln!(
        out,
        "a then b, and a alone, are equal: {to_first} of {PAIRS} pairs of masks"
    )
}

// Phases 3 and 4: one and then the other, the other way round, at once, each followed by a frame.
fn show_strokes<W: Write>(out: &mut W, relay: Relay) -> io::Result<()> {
    let a = lines::show_reset(out, relay, 8)?;
    let a_then_b = lines::show_reset(out, a, 16)?;
    show_frame(out, a_then_b, LAST + 1)?;
    let b = lines::show_reset(out, relay, 16)?;
    let b_then_a = lines::show_reset(out, b, 8)?;
    show_frame(out, b_then_a, LAST + 1)?;
    let at_once = lines::show_reset(out, relay, strokes::union(8, 16))?;
    show_frame(out, at_once, LAST + 1)?;
    show_equal(out, "8 then 16, and 16 then 8", a_then_b, b_then_a)?;
    show_equal(out, "8 then 16, and 24", a_then_b, at_once)?;
    show_equal(out, "16 then 8, and 24", b_then_a, at_once)
}

// One mask twice, no mask, and pairs that are not equal.
fn show_others<W: Write>(out: &mut W, relay: Relay) -> io::Result<()> {
    let first = pressed(relay, 8);
    let both = pressed(relay, 24);
    show_equal(out, "8 then 8, and 8", pressed(first, 8), first)?;
    show_equal(out, "0, and no press", pressed(relay, 0), relay)?;
    show_equal(out, "8, and 24", first, both)?;
    show_equal(out, "8, and 16", first, pressed(relay, 16))?;
    let between = pressed(fed(first, LAST + 1).relay, 16);
    let behind = pressed(fed(relay, LAST + 1).relay, 24);
    show_equal(out, "8, frame 90, 16, and frame 90, 24", between, behind)
}

fn main(rt: HostRuntime) -> io::Result<()> {
    let mut out = io::writer(&rt);
    let relay = show_frame(&mut out, begun(), LAST)?;
    show_strokes(&mut out, relay)?;
    show_others(&mut out, relay)?;
    show_pairs(&mut out, relay)?;
    show_fields(&mut out, &relay)
}
