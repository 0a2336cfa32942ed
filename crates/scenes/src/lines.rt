// The lines that several programs print.
ghost use Rattle.std.specs.Prelude.{◌≡◌, OnOk, IfOk};
ghost use Rattle.std.specs.Io.KnownBytes.{Appends};
ghost use Rattle.text.specs.Text.{spaced, frame_line};
ghost use Rattle.relay.specs.Relay.{reset_of};
ghost use Rattle.scenes.specs.Lines.{runs_of, runs_line, reset_line};

use relay::{Channel, FrameAnswer, Relay};
use std::io;
use std::io::Write;

// Frames before this one are not counted, and change no run.
const FIRST_COUNTED: u16 = 72;

// The line of frame n, as in the bench program.
pub fn show_frame<W: Write>(out: &mut W, n: u16, answer: &FrameAnswer) -> io::Result<()>
    ensures { OnOk result (Appends (W.contents out.old) (W.contents out.new)
        (frame_line n answer.now.amplitudes answer.now.output)) }
{
    let mut line = [0u8; 45];
    let m = text::put_frame_line(&mut line, 0, n, answer.amplitudes, answer.output);
    out.write_all(&line[..m])
}

// A reset, and its line: the mask and the refusal that it answers.
pub fn show_reset<W: Write>(out: &mut W, relay: Relay, mask: u8) -> io::Result<Relay>
    ensures next { IfOk result (λ next. next ≡ (reset_of relay mask).relay) }
    ensures text { OnOk result (Appends (W.contents out.old) (W.contents out.new)
        (reset_line mask (reset_of relay mask).refusal)) }
{
    let answer = relay.reset(mask);
    writeln!(out, "{mask} answers {}", answer.refusal)?;
    Ok(answer.relay)
}

// The loss runs, then the over runs of the currents, a space before each. A voltage has no over run.
fn show_each_run<W: Write>(out: &mut W, channels: &[Channel; 6]) -> io::Result<()>
    ensures { OnOk result (Appends (W.contents out.old) (W.contents out.new) (spaced (runs_of channels.now))) }
{
    for channel in channels {
        let run = channel.loss_run;
        write!(out, " {run}")?;
    }
    for current in &channels[3..] {
        let run = current.over_run;
        write!(out, " {run}")?;
    }
    Ok(())
}

// The runs that frame n left, where it was counted, and its output byte.
pub(crate) fn show_runs<W: Write>(out: &mut W, n: u16, answer: &FrameAnswer) -> io::Result<()>
    ensures { OnOk result (Appends (W.contents out.old) (W.contents out.new) (runs_line n answer.now)) }
{
    if n < FIRST_COUNTED {
        return Ok(());
    }
    let output = answer.output;
    write!(out, "{n}")?;
    show_each_run(out, &answer.relay.channels)?;
    writeln!(out, " {output:02X}")
}
