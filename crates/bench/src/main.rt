// The bench program: reads a capture, makes its report, writes it. No bytes are a capture of zero frames, `frames 0`.
// Where a read fails no line is printed at all; but an upload cut before its first byte, whose end the system reports
// and not a failure, looks like a unit that has recorded nothing.
#![tactic(auto)]

ghost use Rattle.std.specs.Prelude.{◌≡◌, IfOk, OnOk, OnErr};
ghost use Rattle.bench.specs.Written.{Written};

use input::Cut;
use std::io;
use std::io::{Read, Write};

// Writes to the sink the report on what came from the source, or nothing where a read failed. Which bytes standard
// input gives and standard output takes, and whether a read or a write fails, is the system's: no contract says it. Of
// a source and a sink whose bytes are known, and where neither failed, what is written is the report on the whole input
// (`whole_input`).
fn write_report<R: Read, W: Write>(source: &mut R, sink: &mut W) -> Result<io::Result<()>, Cut>
    ensures written { IfOk result (λ answer. OnOk answer (Written
        (R.remaining source.old) (R.remaining source.new) (W.contents sink.old) (W.contents sink.new))) }
    ensures cut { OnErr result (sink.new ≡ sink.old) }
{
    let mut bytes = [0u8; report::INPUT];
    let n = input::read_all(source, &mut bytes)?;
    let mut text = [0u8; report::ROOM];
    let m = report::report(&bytes[..n], &mut text);
    Ok(sink.write_all(&text[..m]))
}

fn main(rt: HostRuntime) -> io::Result<()> {
    // A failed read is told by the missing report alone; a failed write is the program's error.
    write_report(&mut rt.stdin(), &mut io::writer(&rt)).unwrap_or(Ok(()))
}
