// What an accepted frame and an accepted reset make of one channel, of the six windows, of the age and of the slot
// (document 01, "Frames, runs, latches, resets"), and what new levels make of a channel (document 02, Paper 6).
ghost use Rattle.std.specs.Prelude.{◌≡◌, true, cond, ◌<◌};
ghost use Rattle.frames.specs.Codes.{code_limit, codes_in_range};
ghost use Rattle.phasor.specs.Lanes.{WindowsSound, amplitudes_of};
ghost use Rattle.relay.specs.Channel.{fresh_channel, cleared_of, run_after, carried_over};
ghost use Rattle.relay.specs.Relay.{found_by, age_after, slot_after};
ghost use Rattle.relay.specs.Internal.{stored_window, windows_of, channels_and_output, resets_of, changes_of};
ghost use Rattle.relay.specs.Internal.{channel_of, unrestrained_in};

use crate::limits::{SETTLED, unrestrained};
use crate::seen::Seen;
use crate::{Channel, ChannelLevels, ChannelsAndOutput, Levels, Settings};
use frames::bits::{bit, enabled_in, with_bit};
use std::array;

// A run after steps 2 and 3: kept in a frame that is not counted, otherwise grown up to its length where the channel is
// enabled and its level met, else 0.
fn run_after(counted: bool, met: bool, run: u8, len: u8) -> u8
    ensures { result ≡ run_after counted met len run }
{
    if !counted {
        return run;
    }
    if !met {
        return 0;
    }
    if run < len { run + 1 } else { len }
}

impl Channel {
    // "A fresh window is eight zeros"; runs 0, latches off. No `Default`: a derived one promises no list of its
    // samples, and the proof would be three lemmas longer.
    pub(crate) fn fresh() -> Channel
        ensures { result ≡ fresh_channel }
    {
        Channel {
            samples: [0; 8],
            loss_run: 0,
            over_run: 0,
            loss_latch: false,
            over_latch: false,
        }
    }

    // Runs 0 and latches off where the reset names the channel; the samples stay.
    pub(crate) fn after_reset(self, named: bool) -> Channel
        ensures { result ≡ cond named (cleared_of self) self }
    {
        if named {
            Channel {
                loss_run: 0,
                over_run: 0,
                loss_latch: false,
                over_latch: false,
                ..self
            }
        } else {
            self
        }
    }

    // The window with the frame's sample in its slot. Each slot is looked at: one store of two bytes into a window that
    // is then read as sixteen would be waited for.
    fn window_after(self, slot: usize, code: u16) -> phasor::Window
        requires { (slot < 8) × (code < code_limit) }
        ensures { result ≡ stored_window slot code self }
    {
        let mut samples = self.samples;
        let s = frames::codes::sample(code);
        for k in 0..8 {
            if k == slot {
                samples[k] = s;
            }
        }
        phasor::Window { samples }
    }

    // Steps 1 to 4 of a frame, for channel c.
    pub(crate) fn after(self, c: usize, seen: &Seen) -> Channel
        requires { c < 6 }
        ensures { result ≡ channel_of seen.now.settings seen.now.counted seen.now.enable seen.now.windows c self }
    {
        let samples = seen.windows[c].samples;
        let lengths = seen.settings.lengths;
        let levels = seen.settings.levels.of_channel(c);
        let amplitude = seen.amplitudes[c];
        let unrestrained = seen.unrestrained[c];
        let enabled = enabled_in(seen.enable, c);
        let below = enabled & (amplitude < levels.drop);
        let above = enabled & (levels.current & ((levels.pickup <= amplitude) & unrestrained));
        let loss = run_after(seen.counted, below, self.loss_run, lengths.loss);
        let over = run_after(seen.counted, above, self.over_run, lengths.over);
        Channel {
            samples,
            loss_run: loss,
            over_run: over,
            loss_latch: self.loss_latch | (loss == lengths.loss),
            over_latch: self.over_latch | (over == lengths.over),
        }
    }
}

// A run under new levels: as it was where its own level is equal, else 0.
fn carried_run(same: bool, run: u8) -> u8
    ensures { result ≡ cond same run 0 }
{
    if same { run } else { 0 }
}

impl Channel {
    // A channel under its old levels, then its new ones.
    pub(crate) fn after_change(self, old: ChannelLevels, new: ChannelLevels) -> Channel
        ensures { result ≡ carried_over old new self }
    {
        let over_same = (old.pickup == new.pickup) & (old.restraint == new.restraint);
        Channel {
            loss_run: carried_run(old.drop == new.drop, self.loss_run),
            over_run: carried_run(over_same, self.over_run),
            ..self
        }
    }
}

// The six windows with the frame's samples in their slot.
pub(crate) fn windows_after(
    channels: [Channel; 6],
    slot: usize,
    codes: [u16; 6],
) -> [phasor::Window; 6]
    requires { (slot < 8) × (codes_in_range codes ≡ true) }
    ensures { result ≡ windows_of slot codes channels }
{
    array::from_fn(|c| channels[c].window_after(slot, codes[c]))
}

// Which channels are unrestrained, from the windows of step 1 and their amplitudes. The second harmonic is found only
// where some restraint is on.
pub(crate) fn unrestrained_channels(
    settings: Settings,
    windows: [phasor::Window; 6],
    amplitudes: [u16; 6],
) -> [bool; 6]
    requires windows_sound { WindowsSound windows }
    requires amplitudes_value { amplitudes ≡ amplitudes_of windows }
    ensures { result ≡ unrestrained_in settings windows }
{
    let restraint = settings.levels.restraint;
    if restraint == [0; 3] {
        return [true; 6];
    }
    let seconds = phasor::seconds(windows);
    array::from_fn(|c| c < 3 || unrestrained(restraint[c - 3], amplitudes[c], seconds[c - 3]))
}

// Steps 1 to 4 for each channel, and the output byte of step 5.
pub(crate) fn channels_after(old: [Channel; 6], seen: &Seen) -> ChannelsAndOutput
    ensures { result ≡ channels_and_output seen.now.settings seen.now.counted seen.now.enable seen.now.windows old }
{
    let mut channels = old;
    let mut output: u8 = 0;
    for c in 0..6 {
        let channel = old[c].after(c, seen);
        let on = (channel.loss_latch | channel.over_latch) & enabled_in(seen.enable, c);
        channels[c] = channel;
        output = with_bit(output, c, on);
    }
    ChannelsAndOutput { channels, output }
}

// The six channels after a reset.
pub(crate) fn channels_reset(old: [Channel; 6], mask: u8) -> [Channel; 6]
    ensures { result ≡ resets_of mask old }
{
    array::from_fn(|c| old[c].after_reset(bit(mask, c)))
}

// The six channels under new levels.
pub(crate) fn channels_changed(old: [Channel; 6], was: Levels, new: Levels) -> [Channel; 6]
    ensures { result ≡ changes_of was new old }
{
    array::from_fn(|c| old[c].after_change(was.of_channel(c), new.of_channel(c)))
}

// Before the steps: a frame with bit 6 on after one with it off finds age 0 (document 02, Paper 5).
pub(crate) fn age_found(was: bool, on: bool, age: u8) -> u8
    ensures { result ≡ found_by was on age }
{
    if on & !was { 0 } else { age }
}

// Step 2: the age grows by 1 up to 72.
pub(crate) fn age_after(age: u8) -> u8
    ensures { result ≡ age_after age }
{
    if age < SETTLED { age + 1 } else { age }
}

// Step 5: the slot advances, 7 back to 0.
pub(crate) fn slot_after(slot: u8) -> u8
    ensures { result ≡ slot_after slot }
{
    if slot < 7 { slot + 1 } else { 0 }
}
