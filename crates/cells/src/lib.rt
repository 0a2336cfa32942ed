// Parts of frames in memory. The entry points are `excerpt` and `strongest`; frames checks the cells.
#![tactic(auto)]

ghost use Rattle.std.specs.Prelude.{◌≡◌, ◌+◌, ◌*◌, ◌<◌, ◌≤◌};
ghost use Rattle.frames.specs.Codes.{code_limit, sample_of};
ghost use Rattle.cells.specs.Excerpt.{place_of, Excerpt};
ghost use Rattle.cells.specs.Strongest.{squared, window_sum, found, stronger_of};
ghost use Rattle.cells.specs.Strongest.{strongest_in, strongest_of, strongest_answer};
ghost use Rattle.cells.specs.Rolling.{square_at, rolled_on};
ghost use Rattle.cells.specs.Internal.{ChannelRight, most_square};

use refusals::Refusal;

// A part of the caller's cells, counted in cells: the first of them, and how many there are. The default is the empty
// part at the start.
#[repr(C)]
#[derive(Clone, Copy, Debug, Default, PartialEq, Eq)]
pub struct Part {
    pub start: usize,
    pub length: usize,
}

// Where an excerpt stands in the cells. Internal: `excerpt` asks it, and the C interface, where no part of a slice
// can be returned. No `Option`: `place_of` and `Excerpt` promise the empty part, and C is answered it.
pub fn place(cells: &[u16], f: usize, n: usize) -> Part
    ensures { result ≡ place_of cells.now f n }
{
    let frames = cells.len() / 7;
    if cells.len() % 7 != 0 || frames < f || frames - f < n {
        return Part::default();
    }
    Part {
        start: 7 * f,
        length: 7 * n,
    }
}

// The caller's own cells from frame f for n frames; the empty part at the start if f + n exceeds the frames, or the
// cells are no multiple of seven.
pub fn excerpt(cells: &[u16], f: usize, n: usize) -> &[u16]
    ensures { Excerpt cells.now cells.entry.ref_ptr f n result.now result.ref_ptr }
{
    let Part { start, length } = place(cells, f, n);
    &cells[start..start + length]
}

// A window of a channel: the sum of its eight squared samples, and its first frame.
#[derive(Clone, Copy, Debug, PartialEq, Eq)]
pub struct Window {
    pub sum: u32,
    pub frame: usize,
}

impl Window {
    // The stronger of this window and a later one: of equal ones this one.
    fn or_stronger(self, later: Window) -> Window
        ensures { found result ≡ stronger_of (found self) later.sum later.frame }
    {
        if self.sum < later.sum { later } else { self }
    }
}

// What C is answered: the number of the refusal, 0 where the call is accepted, and the strongest window.
#[repr(C)]
#[derive(Clone, Copy, Debug, PartialEq, Eq)]
pub struct StrongestWindow {
    pub refusal: u8,
    pub sum: u32,
    pub frame: usize,
}

impl From<Result<Window, Refusal>> for StrongestWindow {
    ghost from_gives = { λ strongest answer. answer ≡ strongest_answer strongest };

    fn from(strongest: Result<Window, Refusal>) -> StrongestWindow {
        match strongest {
            Ok(Window { sum, frame }) => StrongestWindow {
                refusal: refusals::ACCEPTED,
                sum,
                frame,
            },
            Err(refusal) => StrongestWindow {
                refusal: refusal.into(),
                sum: 0,
                frame: 0,
            },
        }
    }
}

// The square of the sample of a code.
fn square_of(code: u16) -> u32
    requires { code < code_limit }
    ensures { (result ≡ squared (sample_of code)) × (result ≤ most_square) }
{
    let sample = i32::from(frames::codes::sample(code));
    (sample * sample) as u32
}

// A channel of cells that passed the checks: at least eight frames, and each code in range.
#[derive(Clone, Copy)]
struct Channel<'a> {
    cells: &'a [u16],
    number: usize,
    ghost right: { ChannelRight cells.now number },
}

impl Channel<'_> {
    ghost use Rattle.cells.specs.Channel.{frames, codes};

    // The square of the sample of frame f.
    fn square(&self, f: usize) -> u32
        requires { f < frames self.now }
        ensures { (result ≡ square_at (codes self.now) f) × (result ≤ most_square) }
    {
        square_of(self.cells[7 * f + self.number])
    }

    // The sum of the eight squared samples from frame f on.
    fn window_sum(&self, f: usize) -> u32
        requires { f + 8 ≤ frames self.now }
        ensures { result ≡ window_sum (codes self.now) f }
    {
        let mut sum = 0;
        for k in 0..8 {
            sum += self.square(f + k);
        }
        sum
    }

    // From the sum of the window at frame f to that of the window one frame later: the entering square is added, the
    // leaving one taken off. The sum has the leaving square in it, and is at most eight squares.
    fn rolled(&self, f: usize, sum: u32) -> u32
        requires within { f + 8 < frames self.now }
        requires sum_fits { (square_at (codes self.now) f ≤ sum) × (sum ≤ most_square * 8) }
        ensures { result ≡ rolled_on (codes self.now) f sum }
    {
        let entering = self.square(f + 8);
        let leaving = self.square(f);
        sum + entering - leaving
    }

    // The first of the strongest windows. Only the first window is summed; the others' sums are carried along.
    fn strongest(&self) -> Window
        ensures { found result ≡ strongest_in self.now.cells.now self.now.number }
    {
        let last = self.cells.len() / 7 - 8;
        let mut sum = self.window_sum(0);
        let mut best = Window { sum, frame: 0 };
        for f in 0..last {
            sum = self.rolled(f, sum);
            best = best.or_stronger(Window { sum, frame: f + 1 });
        }
        best
    }
}

// The largest sum of eight squared samples of successive frames of a channel, and the first frame where it occurs.
// Checks 12, then 9, then 13.
pub fn strongest(cells: &[u16], channel: usize) -> Result<Window, Refusal>
    ensures { strongest_answer result ≡ strongest_of cells.now channel }
{
    if 5 < channel {
        return Err(Refusal::WrongShape);
    }
    frames::cells::check(cells)?;
    if cells.len() / 7 < 8 {
        return Err(Refusal::FewFrames);
    }
    let of_channel = Channel {
        cells,
        number: channel,
    };
    Ok(of_channel.strongest())
}
