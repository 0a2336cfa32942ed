// What the channels see of a frame that is accepted.
ghost use Rattle.std.specs.Prelude.{◌≡◌};
ghost use Rattle.phasor.specs.Lanes.{amplitudes_of};
ghost use Rattle.relay.specs.Internal.{unrestrained_in};

use crate::Settings;
use phasor::Window;

// The windows that step 1 leaves, their amplitudes and which channels are unrestrained, beside all that decides what
// these do to a channel.
// Arrays side by side: six windows are measured at once, and a frame answers the six amplitudes as they stand here.
#[derive(Clone, Copy)]
pub(crate) struct Seen {
    pub(crate) settings: Settings,
    pub(crate) counted: bool,
    pub(crate) enable: u8,
    pub(crate) windows: [Window; 6],
    pub(crate) amplitudes: [u16; 6],
    pub(crate) unrestrained: [bool; 6],
    ghost amplitudes_value: { amplitudes ≡ amplitudes_of windows },
    ghost unrestrained_value: { unrestrained ≡ unrestrained_in settings windows },
}
