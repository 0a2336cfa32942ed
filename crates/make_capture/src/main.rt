// Makes a capture for the demonstrator. It reads 55 numbers from standard input, 220 bytes, the oldest number first,
// each four bytes with the lowest first, and writes the capture of the 4,096 frames that they make. All numbers even:
// the line `refused 24` alone. Not 220 bytes: the line `220 bytes are wanted` alone. A read that fails: nothing at all,
// which a reader takes for a unit that has recorded nothing.
#![tactic(auto)]

ghost use Rattle.std.specs.Prelude.{◌≡◌};
ghost use Rattle.make_capture.specs.Numbers.{number_of, numbers_of};

use std::io;

// The bytes of 55 numbers.
const WANTED: usize = 220;

// One more, to see that nothing follows.
const INPUT: usize = WANTED + 1;

// The cells of the most frames.
const CELLS: usize = 7 * frames::MOST_FRAMES;

// The number of four bytes, the lowest first.
fn number(a: u8, b: u8, c: u8, d: u8) -> u32
    ensures { result ≡ number_of a b c d }
{
    u32::from_le_bytes([a, b, c, d])
}

// The numbers of the first 220 bytes. The four bytes are named one by one, as `number_of` has them; with
// `array::from_fn` in place of the loop the proof did not close.
fn numbers_of(bytes: &[u8; INPUT]) -> [u32; 55]
    ensures { result ≡ numbers_of bytes.now }
{
    let mut numbers = [0; 55];
    for k in 0..55 {
        numbers[k] = number(
            bytes[4 * k],
            bytes[4 * k + 1],
            bytes[4 * k + 2],
            bytes[4 * k + 3],
        );
    }
    numbers
}

// Writes the frames as a capture to standard output. Those that were made are never refused here (`made_fits`).
fn show_capture(rt: &impl Print, cells: &[u16]) -> io::Result<()> {
    let mut bytes = [0; capture::LONGEST];
    match writer::write(cells, &mut bytes) {
        Ok(n) => rt.write_all(&bytes[..n]),
        Err(_) => Ok(()),
    }
}

fn main(rt: HostRuntime) -> io::Result<()> {
    let mut bytes = [0; INPUT];
    let Ok(count) = input::read_all(&mut rt.stdin(), &mut bytes) else {
        return Ok(());
    };
    if count != WANTED {
        return println!(rt; "220 bytes are wanted");
    }
    let mut cells = [0; CELLS];
    match generator::generate(numbers_of(&bytes), frames::MOST_FRAMES, &mut cells) {
        Ok(_) => show_capture(&rt, &cells),
        Err(refusal) => println!(rt; "refused {refusal}"),
    }
}
