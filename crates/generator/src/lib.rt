// The same test waveform on every bench (document 02, Paper 12): frames whose codes come from a lagged generator. The
// entry point is `generate`; every other function is internal, and its callers meet its `requires`.
#![tactic(auto)]

ghost use Rattle.std.specs.Prelude.{◌≡◌, ◌+◌, ◌*◌, ◌≤◌, length, take, map};
ghost use Rattle.std.specs.List.{list_all, range_with_len};
ghost use Rattle.lists.specs.Put.{Put};
ghost use Rattle.refusals.specs.Outcomes.{Answered, refusal_in, count_in};
ghost use Rattle.generator.specs.Generator.{top_ten_bits, frames_made, is_even, generate_of};
ghost use Rattle.generator.specs.Internal.{sum_at, codes_of_six, Moved, NextPut, SomePut};

use refusals::Refusal;
use std::array;

// Bits 0 to 6 are on: each channel and the device are enabled.
const ENABLE: u8 = 0x7F;

// The numbers that are kept at once: 55, and behind them those of 67 frames. 64 are made between two moves to the
// front, four at a time; the last three or fewer have room without asking.
const KEPT: usize = 457;

// The first 55 numbers are all even.
fn all_even(numbers: &[u32]) -> bool
    requires { 55 ≤ length numbers.now }
    ensures { result ≡ list_all is_even (take 55 numbers.now) }
{
    numbers[..55].iter().all(|number| number % 2 == 0)
}

// The six numbers after the 55 that `latest` begins with: each is the sum of those 24 and 55 places back, which are 31
// and none behind the first.
fn next_six(latest: &[u32]) -> [u32; 6]
    requires { 61 ≤ length latest.now }
    ensures { result ≡ map (sum_at latest.now) (range_with_len 0 6) }
{
    array::from_fn(|k| latest[k + 31].wrapping_add(latest[k]))
}

// The top ten bits of a number.
fn top_ten_bits(number: u32) -> u16
    ensures { result ≡ top_ten_bits number }
{
    (number >> 22) as u16
}

// Those of six numbers.
fn codes_of(six: [u32; 6]) -> [u16; 6]
    ensures { result ≡ codes_of_six six }
{
    six.map(top_ten_bits)
}

// Where the 55 numbers that begin at `from` begin, once there is room behind them for the numbers of seven frames:
// four, and up to three at the end. Where there is none they move to the front, one by one: std's slices have no
// `copy_within`.
fn with_room(numbers: &mut [u32], from: usize) -> usize
    requires { (97 ≤ length numbers.old) × (from + 55 ≤ length numbers.old) }
    ensures { Moved numbers.old from numbers.new result }
{
    if from + 97 <= numbers.len() {
        return from;
    }
    for k in 0..55 {
        numbers[k] = numbers[from + k];
    }
    0
}

// Makes the six numbers after the 55 that `latest` begins with, keeps them behind these, and puts their codes as a
// frame. Number by number, for the reason that stands at `put_frame` of frames.
fn put_next(latest: &mut [u32], frame: &mut [u16])
    requires { (61 ≤ length latest.old) × (7 ≤ length frame.old) }
    ensures { NextPut latest.old 0 frame.old 0
        latest.new frame.new }
{
    let six = next_six(latest);
    for k in 0..6 {
        latest[55 + k] = six[k];
    }
    frames::cells::put_frame(frame, 0, codes_of(six), ENABLE);
}

// The same for m frames, the first of them the first of the cells.
fn put_some(latest: &mut [u32], cells: &mut [u16], m: usize)
    requires { (55 + 6 * m ≤ length latest.old) × (7 * m ≤ length cells.old) }
    ensures { SomePut latest.old 0 cells.old 0 m
        latest.new cells.new }
{
    for k in 0..m {
        put_next(&mut latest[6 * k..], &mut cells[7 * k..]);
    }
}

// Puts the n frames that are made after the first 55 numbers into the front of the cells: four at a time, so that the
// compiler makes several numbers at once, and then the rest. `from` is a local: a struct with the row would be no
// plainer.
fn put_frames(numbers: &mut [u32], n: usize, cells: &mut [u16])
    requires { (97 ≤ length numbers.old) × (7 * n ≤ length cells.old) }
    ensures { Put cells.old 0 (frames_made (take 55 numbers.old) n)
        cells.new (7 * n) }
{
    let mut from = 0;
    for k in 0..n / 4 {
        from = with_room(numbers, from);
        put_some(&mut numbers[from..], &mut cells[28 * k..], 4);
        from += 24;
    }
    let put = n - n % 4;
    put_some(&mut numbers[from..], &mut cells[7 * put..], n - put);
}

// Makes n frames from 55 given numbers, oldest first, into the front of the lent cells, and answers n. Checks 24, then
// 9, then 11. The given numbers are copied once, into the row, and asked there: asking them where they were given costs
// a second copy.
pub fn generate(given: [u32; 55], n: usize, cells: &mut [u16]) -> Result<usize, Refusal>
    ensures { Answered (generate_of given n cells.old)
        (refusal_in result) (count_in result) cells.new }
{
    let mut numbers = [0; KEPT];
    numbers[..55].copy_from_slice(&given);
    if all_even(&numbers) {
        return Err(Refusal::AllEven);
    }
    if frames::MOST_FRAMES < n {
        return Err(Refusal::OutOfRange);
    }
    if cells.len() < 7 * n {
        return Err(Refusal::DoesNotFit);
    }
    put_frames(&mut numbers, n, cells);
    Ok(n)
}
