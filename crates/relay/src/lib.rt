// The relay of document 01: six channels, each with its window, runs and latches, under nine levels, and a restraint
// level for each current (document 02, Paper 8); it settles at the start and when the device is enabled again (Paper
// 5), takes new levels while it runs (Paper 6), and counts runs up to lengths that it was made with (Paper 9). Its
// entry points are `Relay::fresh`, `Relay::frame`, `Relay::reset` and `Relay::change`: each takes any arguments, a
// relay that is not sound too, and promises its whole answer.
#![tactic(auto)]

ghost use Rattle.std.specs.Prelude.{◌≡◌};
ghost use Rattle.refusals.specs.Refusals.{number_of};
ghost use Rattle.refusals.specs.Outcomes.{refusal_in};
ghost use Rattle.relay.specs.Relay.{unused_relay, fresh_of, frame_refusal, accepted_frame, refused_frame, frame_of};
ghost use Rattle.relay.specs.Relay.{reset_refusal, accepted_reset, reset_of};
ghost use Rattle.relay.specs.Relay.{change_refusal, accepted_change, change_of};

mod checks; // checks.rt: whether a relay is sound
mod limits; // limits.rt: levels, restraint, run lengths
mod seen; // seen.rt: what the channels see of a frame
mod steps; // steps.rt: what an accepted call makes of a channel

use refusals::Refusal;
use seen::Seen;

// One channel: its last eight samples beside its two runs and its two latches.
#[repr(C)]
#[derive(Clone, Copy, Debug, PartialEq, Eq)]
pub struct Channel {
    pub samples: [i16; 8],
    pub loss_run: u8,
    pub over_run: u8,
    pub loss_latch: bool,
    pub over_latch: bool,
}

// The levels of one channel. A voltage has no pickup and no restraint; their places hold 0. Public because the
// history's definitions name it; no entry point takes or gives one. Those definitions (`same_pickup`, `over`) read the
// pickup of a voltage too, so it is no `Option` beside the drop.
#[derive(Clone, Copy, Debug, PartialEq, Eq)]
pub struct ChannelLevels {
    pub drop: u16,
    pub pickup: u16,
    pub restraint: u8,
    pub current: bool,
}

// What a dispatcher can change: a drop level for each channel, a pickup level and a restraint level for each current.
// Arrays side by side, for C hands them in so.
#[repr(C)]
#[derive(Clone, Copy, Debug, PartialEq, Eq)]
pub struct Levels {
    pub drop: [u16; 6],
    pub pickup: [u16; 3],
    pub restraint: [u8; 3],
}

// The frames of a full loss run and of a full over run: one pair for the device, fixed when it is made (document 02,
// Paper 9).
#[repr(C)]
#[derive(Clone, Copy, Debug, PartialEq, Eq)]
pub struct Lengths {
    pub loss: u8,
    pub over: u8,
}

// All that a relay is made with.
#[repr(C)]
#[derive(Clone, Copy, Debug, PartialEq, Eq)]
pub struct Settings {
    pub levels: Levels,
    pub lengths: Lengths,
}

// `device_on` is bit 6 of the latest accepted frame; a fresh relay has it on.
#[repr(C)]
#[derive(Clone, Copy, Debug, PartialEq, Eq)]
pub struct Relay {
    pub channels: [Channel; 6],
    pub age: u8,
    pub slot: u8,
    pub device_on: bool,
    pub settings: Settings,
}

// What `fresh`, `reset` and `change` answer. The relay comes back whether the call was accepted or refused, and C is
// answered these very structs: so the refusal is the documents' number here, 0 where the call was accepted, and no
// `Result`.
#[repr(C)]
#[derive(Clone, Copy, Debug, PartialEq, Eq)]
pub struct RelayAnswer {
    pub relay: Relay,
    pub refusal: u8,
}

// What `frame` answers. Its refusal is a number for the same two reasons.
#[repr(C)]
#[derive(Clone, Copy, Debug, PartialEq, Eq)]
pub struct FrameAnswer {
    pub relay: Relay,
    pub refusal: u8,
    pub amplitudes: [u16; 6],
    pub output: u8,
}

// What an accepted frame makes of the six channels, and its output byte.
#[derive(Clone, Copy)]
struct ChannelsAndOutput {
    channels: [Channel; 6],
    output: u8,
}

// What refusals 2, 3 and 4 answer: the relay as given, amplitudes and output 0.
fn refused_frame(relay: Relay, refusal: Refusal) -> FrameAnswer
    ensures { result ≡ refused_frame relay (number_of refusal) }
{
    FrameAnswer {
        relay,
        refusal: refusal.into(),
        amplitudes: [0; 6],
        output: 0,
    }
}

impl Relay {
    // A relay that no frame has met: a fresh one remembers on, the all-zero one off.
    fn unused(device_on: bool, settings: Settings) -> Relay
        ensures { result ≡ unused_relay device_on settings }
    {
        Relay {
            channels: [Channel::fresh(); 6],
            age: 0,
            slot: 0,
            device_on,
            settings,
        }
    }

    // Makes a fresh relay; a level outside 1 to 10,700, a restraint above 100, or a length outside 1 to 24, in this
    // order, is refused with the all-zero relay.
    pub fn fresh(settings: Settings) -> RelayAnswer
        ensures { result ≡ fresh_of settings }
    {
        match settings.check() {
            Ok(()) => RelayAnswer {
                relay: Relay::unused(true, settings),
                refusal: refusals::ACCEPTED,
            },
            Err(refusal) => RelayAnswer {
                relay: Relay::unused(false, Settings::zeros()),
                refusal: refusal.into(),
            },
        }
    }

    // An accepted frame: the age that it finds, and its five steps.
    fn accepted_frame(self, codes: [u16; 6], enable: u8) -> FrameAnswer
        requires { frame_refusal self codes enable ≡ 0 }
        ensures { result ≡ accepted_frame self codes enable }
    {
        let old = self.channels;
        let settings = self.settings;
        let slot = usize::from(self.slot);
        let on = frames::bits::bit(enable, 6);
        let age = steps::age_found(self.device_on, on, self.age);
        let counted = limits::SETTLED <= age;
        let windows = steps::windows_after(old, slot, codes);
        let amplitudes = phasor::amplitudes(windows);
        let unrestrained = steps::unrestrained_channels(settings, windows, amplitudes);
        let seen = Seen {
            settings,
            counted,
            enable,
            windows,
            amplitudes,
            unrestrained,
        };
        let made = steps::channels_after(old, &seen);
        let channels = made.channels;
        FrameAnswer {
            relay: Relay {
                channels,
                age: steps::age_after(age),
                slot: steps::slot_after(self.slot),
                device_on: on,
                settings,
            },
            refusal: refusals::ACCEPTED,
            amplitudes,
            output: made.output,
        }
    }

    // The checks of a frame, in their order.
    fn check_frame(&self, codes: [u16; 6], enable: u8) -> Result<(), Refusal>
        ensures { refusal_in result ≡ frame_refusal self.now codes enable }
    {
        if !self.sound() {
            return Err(Refusal::UnsoundRelay);
        }
        if !frames::codes::codes_in_range(codes) {
            return Err(Refusal::BadCode);
        }
        if frames::bits::bit(enable, 7) {
            return Err(Refusal::BadEnable);
        }
        Ok(())
    }

    // One frame: six codes in channel order, and the enable byte, apart as document 01 and C hand them in.
    pub fn frame(self, codes: [u16; 6], enable: u8) -> FrameAnswer
        ensures { result ≡ frame_of self codes enable }
    {
        match self.check_frame(codes, enable) {
            Ok(()) => self.accepted_frame(codes, enable),
            Err(refusal) => refused_frame(self, refusal),
        }
    }

    // Clears runs and latches of the channels that the mask names, and nothing else.
    fn accepted_reset(self, mask: u8) -> RelayAnswer
        ensures { result ≡ accepted_reset self mask }
    {
        let channels = steps::channels_reset(self.channels, mask);
        RelayAnswer {
            relay: Relay { channels, ..self },
            refusal: refusals::ACCEPTED,
        }
    }

    // The checks of a reset, in their order.
    fn check_reset(&self, mask: u8) -> Result<(), Refusal>
        ensures { refusal_in result ≡ reset_refusal self.now mask }
    {
        if !self.sound() {
            return Err(Refusal::UnsoundRelay);
        }
        if frames::bits::bit(mask, 6) | frames::bits::bit(mask, 7) {
            return Err(Refusal::BadMask);
        }
        Ok(())
    }

    // A reset of the channels that the mask's bits 0 to 5 name.
    pub fn reset(self, mask: u8) -> RelayAnswer
        ensures { result ≡ reset_of self mask }
    {
        match self.check_reset(mask) {
            Ok(()) => self.accepted_reset(mask),
            Err(refusal) => RelayAnswer {
                relay: self,
                refusal: refusal.into(),
            },
        }
    }

    // New levels: each run is kept where its own level is equal; windows, slot, age, latches and memory stay.
    fn accepted_change(self, levels: Levels) -> RelayAnswer
        ensures { result ≡ accepted_change self levels }
    {
        let channels = steps::channels_changed(self.channels, self.settings.levels, levels);
        let settings = Settings {
            levels,
            ..self.settings
        };
        RelayAnswer {
            relay: Relay {
                channels,
                settings,
                ..self
            },
            refusal: refusals::ACCEPTED,
        }
    }

    // The checks of a change, in their order.
    fn check_change(&self, levels: Levels) -> Result<(), Refusal>
        ensures { refusal_in result ≡ change_refusal self.now levels }
    {
        if !self.sound() {
            return Err(Refusal::UnsoundRelay);
        }
        levels.check()
    }

    // New levels, all of them at once: the relay goes on under these. Refused are a relay that is not sound, a level
    // outside 1 to 10,700 and a restraint above 100, in this order, with the relay as given.
    pub fn change(self, levels: Levels) -> RelayAnswer
        ensures { result ≡ change_of self levels }
    {
        match self.check_change(levels) {
            Ok(()) => self.accepted_change(levels),
            Err(refusal) => RelayAnswer {
                relay: self,
                refusal: refusal.into(),
            },
        }
    }
}
