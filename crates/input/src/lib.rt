// What programs read into a fixed buffer, from standard input or a file: how many bytes came in, or that a read failed
// behind so many. No entry point stands here. The project has no heap: a buffer has a fixed size, and how much of it
// counts goes beside it as a number, here and in the programs.
#![tactic(auto)]

ghost use Rattle.std.specs.Prelude.{◌≡◌, ◌<◌, ◌≤◌, length, take, OnOk};
ghost use Rattle.std.specs.Io.KnownBytes.{Consumes, IsAtEnd};
ghost use Rattle.input.specs.Input.{count_of};

use std::error::Error;
use std::fmt;
use std::io::Read;

// A read failed. The bytes that came before it, so many, stand at the front of the buffer.
#[derive(Clone, Copy, Debug)]
pub struct Cut {
    pub count: usize,
}

impl fmt::Display for Cut {
    ghost use Rattle.std.specs.Prelude.{Some, codes, ◌++◌};
    ghost use Rattle.std.specs.Fmt.{decimal};

    ghost output = { λ cut. Some (codes "a read failed behind " ++ decimal cut.count ++ codes " bytes") };

    fn fmt<W: fmt::Write>(&self, f: &mut fmt::Formatter<W>) -> fmt::Result {
        let count = self.count;
        write!(f, "a read failed behind {count} bytes")
    }
}

impl Error for Cut {}

// Reads until the buffer is full, the input ends or a read fails; std's `read_exact` does not say how many bytes came.
// Which of the three it is, and which bytes standard input gives, is the system's: no contract says it. Of a source
// whose bytes are known these are the first, and all where no read failed and room is left.
pub fn read_all<R: Read>(source: &mut R, buf: &mut [u8]) -> Result<usize, Cut>
    ensures within { count_of result ≤ length buf.new }
    ensures front { count_of result ≡ length (take (count_of result) buf.new) }
    ensures bytes { Consumes (R.remaining source.old) (R.remaining source.new) (take (count_of result) buf.new) }
    ensures end { OnOk result (count_of result < length buf.new → IsAtEnd (R.remaining source.new)) }
{
    let mut count: usize = 0;
    while count < buf.len() {
        let Ok(n) = source.read(&mut buf[count..]) else {
            return Err(Cut { count });
        };
        if n == 0 {
            return Ok(count);
        }
        count += n;
    }
    Ok(count)
}
