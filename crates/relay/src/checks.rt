// Whether a relay that is handed in is sound (document 01, end of "Frames, runs, latches, resets").
ghost use Rattle.std.specs.Prelude.{◌≡◌};
ghost use Rattle.relay.specs.Sound.{over_sound, sound_of};
ghost use Rattle.relay.specs.Internal.{state_sound, windows_sound, states_sound, rest_sound};

use crate::limits::SETTLED;
use crate::{Channel, Lengths, Relay, Settings};

// A current's over run is 0 to its length; a voltage has none, and no over latch. A flag says which it is, as in the
// definitions `over_sound` and `state_sound`.
fn over_sound(len: u8, current: bool, ch: Channel) -> bool
    ensures { result ≡ over_sound len current ch }
{
    if current {
        ch.over_run <= len
    } else {
        (ch.over_run == 0) & !ch.over_latch
    }
}

// A channel's runs and latches.
fn state_sound(lengths: Lengths, current: bool, ch: Channel) -> bool
    ensures { result ≡ state_sound lengths current ch }
{
    (ch.loss_run <= lengths.loss) & over_sound(lengths.over, current, ch)
}

// The samples of all channels, with no early return: the compiler then tests eight at a time, and the outcome once.
fn windows_sound(channels: &[Channel; 6]) -> bool
    ensures { result ≡ windows_sound channels.now }
{
    let mut ok = true;
    for channel in channels {
        ok = ok & phasor::window_sound(channel.samples);
    }
    ok
}

// The runs and latches of all channels.
fn states_sound(lengths: Lengths, channels: &[Channel; 6]) -> bool
    ensures { result ≡ states_sound lengths channels.now }
{
    for (c, channel) in channels.iter().enumerate() {
        if !state_sound(lengths, 3 <= c, *channel) {
            return false;
        }
    }
    true
}

// What a relay has besides its channels.
fn rest_sound(settings: Settings, age: u8, slot: u8) -> bool
    ensures { result ≡ rest_sound settings age slot }
{
    settings.sound() & (age <= SETTLED) & (slot <= 7)
}

impl Relay {
    // Whether a relay that is handed in is sound: all samples first, then all runs and latches. It takes a reference: a
    // relay that goes by value to a function with two callers is copied for each call.
    pub(crate) fn sound(&self) -> bool
        ensures { result ≡ sound_of self.now }
    {
        rest_sound(self.settings, self.age, self.slot)
            & (windows_sound(&self.channels) & states_sound(self.settings.lengths, &self.channels))
    }
}
