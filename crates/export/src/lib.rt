// The relay and its captures for other languages: a thin C interface over the entry points. No function here has a
// `requires`, and each is one call, whose contract it has. Structs pass by value, the relay too. An array does not
// pass by value, a part of a slice does not come back, and C knows no `Result`: a struct that holds the array, start
// and length, and the refusal's number beside the values stand in for them.
#![tactic(auto)]

ghost use Rattle.std.specs.Prelude.{◌≡◌};
ghost use Rattle.relay.specs.Relay.{fresh_of, frame_of, reset_of, change_of};
ghost use Rattle.phasor.specs.Estimate.{estimate_of};
ghost use Rattle.refusals.specs.Outcomes.{Answered};
ghost use Rattle.reader.specs.Reading.{read_of};
ghost use Rattle.writer.specs.Writing.{write_of};
ghost use Rattle.cells.specs.Excerpt.{place_of};
ghost use Rattle.cells.specs.Strongest.{strongest_of};
ghost use Rattle.generator.specs.Generator.{generate_of};
ghost use Rattle.report.specs.Report.{Reported};

use cells::{Part, StrongestWindow};
use phasor::{EstimateAnswer, Window};
use refusals::Answer;
use relay::{FrameAnswer, Levels, Relay, RelayAnswer, Settings};

// Six codes in channel order.
#[repr(C)]
#[derive(Clone, Copy)]
pub struct Codes {
    pub codes: [u16; 6],
}

// The numbers that a test waveform starts from, the oldest first.
#[repr(C)]
#[derive(Clone, Copy)]
pub struct Numbers {
    pub numbers: [u32; 55],
}

// Makes a fresh relay.
#[unsafe(no_mangle)]
pub extern "C" fn p6k_fresh(settings: Settings) -> RelayAnswer
    ensures { result ≡ fresh_of settings }
{
    Relay::fresh(settings)
}

// One frame: six codes and the enable byte.
#[unsafe(no_mangle)]
pub extern "C" fn p6k_frame(relay: Relay, codes: Codes, enable: u8) -> FrameAnswer
    ensures { result ≡ frame_of relay codes.codes enable }
{
    relay.frame(codes.codes, enable)
}

// A reset of the channels that the mask names.
#[unsafe(no_mangle)]
pub extern "C" fn p6k_reset(relay: Relay, mask: u8) -> RelayAnswer
    ensures { result ≡ reset_of relay mask }
{
    relay.reset(mask)
}

// New levels, all of them, while the relay goes on.
#[unsafe(no_mangle)]
pub extern "C" fn p6k_change(relay: Relay, levels: Levels) -> RelayAnswer
    ensures { result ≡ change_of relay levels }
{
    relay.change(levels)
}

// The estimate of one window for an order: 1 for the fundamental, 2 or 3 for a harmonic.
#[unsafe(no_mangle)]
pub extern "C" fn p6k_estimate(window: Window, order: u8) -> EstimateAnswer
    ensures { result ≡ estimate_of window.samples order }
{
    phasor::estimate(window.samples, order).into()
}

// Reads a capture into the front of the lent cells.
#[unsafe(no_mangle)]
pub extern "C" fn p6k_read(bytes: &[u8], cells: &mut [u16]) -> Answer
    ensures { Answered (read_of bytes.now cells.old) result.refusal result.count cells.new }
{
    reader::read(bytes, cells).into()
}

// Writes the cells as a capture into the front of the lent bytes.
#[unsafe(no_mangle)]
pub extern "C" fn p6k_write(cells: &[u16], bytes: &mut [u8]) -> Answer
    ensures { Answered (write_of cells.now bytes.old) result.refusal result.count bytes.new }
{
    writer::write(cells, bytes).into()
}

// Where the excerpt of so many frames from a frame on stands in the cells.
#[unsafe(no_mangle)]
pub extern "C" fn p6k_excerpt(cells: &[u16], frame: usize, frames: usize) -> Part
    ensures { result ≡ place_of cells.now frame frames }
{
    cells::place(cells, frame, frames)
}

// The strongest window of a channel.
#[unsafe(no_mangle)]
pub extern "C" fn p6k_strongest(cells: &[u16], channel: usize) -> StrongestWindow
    ensures { result ≡ strongest_of cells.now channel }
{
    cells::strongest(cells, channel).into()
}

// Makes so many frames of a test waveform into the front of the lent cells.
#[unsafe(no_mangle)]
pub extern "C" fn p6k_generate(given: Numbers, frames: usize, cells: &mut [u16]) -> Answer
    ensures { Answered (generate_of given.numbers frames cells.old)
        result.refusal result.count cells.new }
{
    generator::generate(given.numbers, frames, cells).into()
}

// Puts the whole output of the bench program for a capture at the front of the text, and answers its length.
#[unsafe(no_mangle)]
pub extern "C" fn p6k_report(capture: &[u8], text: &mut [u8]) -> usize
    ensures { Reported capture.now text.old result text.new }
{
    report::report(capture, text)
}
