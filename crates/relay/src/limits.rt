// Levels, harmonic restraint and run lengths: all that a level or a length is stands in this file.
ghost use Rattle.std.specs.Prelude.{◌≡◌, ◌<◌, length};
ghost use Rattle.refusals.specs.Outcomes.{refusal_in};
ghost use Rattle.relay.specs.Settings.{levels_in_range, nine_sound, restraints_sound, lengths_sound, settings_sound};
ghost use Rattle.relay.specs.Settings.{length_in_range, zero_settings, levels_of, unrestrained};
ghost use Rattle.relay.specs.Relay.{level_refusal, fresh_refusal};

use crate::{ChannelLevels, Lengths, Levels, Settings};
use refusals::Refusal;

// A frame that finds this age is counted.
pub(crate) const SETTLED: u8 = 72;

// A level is 1 to this.
const MOST_LEVEL: u16 = 10700;

// A restraint level is 0, off, or 1 to this, in hundredths of the fundamental.
const MOST_RESTRAINT: u8 = 100;

// A run length is 1 to this.
const MOST_LENGTH: u8 = 24;

// Each of the levels is in range. All are looked at: without an early return the loop is quicker.
fn levels_in_range(levels: &[u16]) -> bool
    ensures { result ≡ levels_in_range (length levels.now) levels.now }
{
    let mut ok = true;
    for &level in levels {
        ok = ok & ((1 <= level) & (level <= MOST_LEVEL));
    }
    ok
}

// Each of the restraint levels is; all are looked at here too. No function over a type parameter serves both: it would
// take the limits and the order of the numbers from its bound, which is no plainer.
fn restraints_in_range(restraints: [u8; 3]) -> bool
    ensures { result ≡ restraints_sound restraints }
{
    let mut ok = true;
    for restraint in restraints {
        ok = ok & (restraint <= MOST_RESTRAINT);
    }
    ok
}

// A run length is.
fn length_in_range(len: u8) -> bool
    ensures { result ≡ length_in_range len }
{
    (1 <= len) & (len <= MOST_LENGTH)
}

// A frame of these amplitudes may feed the over run: restraint is off, or the second harmonic is less than r hundredths
// of the fundamental.
pub(crate) fn unrestrained(r: u8, fundamental: u16, second: u16) -> bool
    ensures { result ≡ unrestrained r fundamental second }
{
    (r == 0) | (100 * u32::from(second) < u32::from(r) * u32::from(fundamental))
}

impl Lengths {
    // Both lengths in range.
    fn sound(self) -> bool
        ensures { result ≡ lengths_sound self }
    {
        length_in_range(self.loss) & length_in_range(self.over)
    }
}

impl Settings {
    // What the all-zero relay holds. No `Default`: every call refuses these settings.
    pub(crate) fn zeros() -> Settings
        ensures { result ≡ zero_settings }
    {
        Settings {
            levels: Levels {
                drop: [0; 6],
                pickup: [0; 3],
                restraint: [0; 3],
            },
            lengths: Lengths { loss: 0, over: 0 },
        }
    }

    // All settings in range.
    pub(crate) fn sound(self) -> bool
        ensures { result ≡ settings_sound self }
    {
        let levels = self.levels;
        levels.nine_sound() & restraints_in_range(levels.restraint) & self.lengths.sound()
    }

    // The checks of settings that are handed in, in their order.
    pub(crate) fn check(self) -> Result<(), Refusal>
        ensures { refusal_in result ≡ fresh_refusal self }
    {
        self.levels.check()?;
        if !self.lengths.sound() {
            return Err(Refusal::BadLength);
        }
        Ok(())
    }
}

impl Levels {
    // Nine levels in range: the restraints are apart, for they have a refusal of their own.
    fn nine_sound(self) -> bool
        ensures { result ≡ nine_sound self }
    {
        levels_in_range(&self.drop) & levels_in_range(&self.pickup)
    }

    // The checks of levels that are handed in, in their order.
    pub(crate) fn check(self) -> Result<(), Refusal>
        ensures { refusal_in result ≡ level_refusal self }
    {
        if !self.nine_sound() {
            return Err(Refusal::BadSetting);
        }
        if !restraints_in_range(self.restraint) {
            return Err(Refusal::BadRestraint);
        }
        Ok(())
    }

    // The levels of one channel.
    pub(crate) fn of_channel(self, c: usize) -> ChannelLevels
        requires { c < 6 }
        ensures { result ≡ levels_of self c }
    {
        let drop = self.drop[c];
        if c < 3 {
            return ChannelLevels {
                drop,
                pickup: 0,
                restraint: 0,
                current: false,
            };
        }
        ChannelLevels {
            drop,
            pickup: self.pickup[c - 3],
            restraint: self.restraint[c - 3],
            current: true,
        }
    }
}
