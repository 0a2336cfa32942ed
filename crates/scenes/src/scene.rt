// Scenes: waves and new levels for a relay of its own, one after the other.
ghost use Rattle.std.specs.Prelude.{◌≡◌, ◌-◌, OnOk, IfOk, replicate};
ghost use Rattle.std.specs.Io.KnownBytes.{Appends};
ghost use Rattle.relay.specs.Relay.{fresh_of, frame_of, change_of};
ghost use Rattle.scenes.specs.Lines.{runs_line, change_line};
ghost use Rattle.scenes.specs.Played.{fed, played};
ghost use Rattle.scenes.specs.PlayedText.{fed_text, played_text};

use crate::{ALL_ENABLED, code_in, lines};
use relay::{Levels, Relay, Settings};
use std::io;
use std::io::Write;

// A wave on all channels, up to the frame before the one with this number; or new levels.
#[derive(Clone, Copy)]
pub enum Step {
    Feed([u16; 8], u16),
    Change(Levels),
}

// A scene's name, what its relay is made with, and its steps.
#[derive(Clone, Copy)]
pub struct Scene<'a> {
    pub name: &'a str,
    pub settings: Settings,
    pub steps: &'a [Step],
}

// Frame n, with the same code on all channels, and its line.
fn feed<W: Write>(out: &mut W, relay: Relay, code: u16, n: u16) -> io::Result<Relay>
    ensures next { IfOk result (λ next. next ≡ (frame_of relay (replicate 6 code) 127).relay) }
    ensures text { OnOk result (Appends (W.contents out.old) (W.contents out.new)
        (runs_line n (frame_of relay (replicate 6 code) 127))) }
{
    let answer = relay.frame([code; 6], ALL_ENABLED);
    lines::show_runs(out, n, &answer)?;
    Ok(answer.relay)
}

// The frames from `first` to the one before `end`, with the wave on all channels, and their lines.
fn feed_wave<W: Write>(
    out: &mut W,
    mut relay: Relay,
    wave: [u16; 8],
    first: u16,
    end: u16,
) -> io::Result<Relay>
    ensures next { IfOk result (λ next. next ≡ fed relay wave first (end - first)) }
    ensures text { OnOk result (Appends (W.contents out.old) (W.contents out.new)
        (fed_text relay wave first (end - first))) }
{
    for n in first..end {
        relay = feed(out, relay, code_in(&wave, n), n)?;
    }
    Ok(relay)
}

// New levels, and the refusal that they meet: 0 where they are accepted.
fn change<W: Write>(out: &mut W, relay: Relay, levels: Levels) -> io::Result<Relay>
    ensures next { IfOk result (λ next. next ≡ (change_of relay levels).relay) }
    ensures text { OnOk result (Appends (W.contents out.old) (W.contents out.new)
        (change_line (change_of relay levels).refusal)) }
{
    let answer = relay.change(levels);
    writeln!(out, "change {}", answer.refusal)?;
    Ok(answer.relay)
}

impl Scene<'_> {
    // Its name, then a line for each counted frame and for each change; it answers the relay as the last step leaves
    // it.
    pub fn play<W: Write>(&self, out: &mut W) -> io::Result<Relay>
        ensures next { IfOk result (λ relay. relay ≡ played (fresh_of self.now.settings).relay 0 self.now.steps.now) }
        ensures text { OnOk result (Appends (W.contents out.old) (W.contents out.new)
            (played_text self.now.name.now (fresh_of self.now.settings).relay self.now.steps.now)) }
    {
        writeln!(out, "{}", self.name)?;
        let mut relay = Relay::fresh(self.settings).relay;
        let mut first = 0;
        for step in self.steps {
            match *step {
                Step::Feed(wave, end) => {
                    relay = feed_wave(out, relay, wave, first, end)?;
                    first = end;
                }
                Step::Change(levels) => relay = change(out, relay, levels)?,
            }
        }
        Ok(relay)
    }
}
