// A code and its sample (document 01, "From codes to amplitude").
ghost use Rattle.std.specs.Prelude.{◌≡◌, ◌<◌};
ghost use Rattle.frames.specs.Codes.{code_limit, sample_of, sample_sound, codes_in_range};

// What a sample is a code less.
const MIDDLE: i16 = crate::MIDDLE_CODE as i16;

const LEAST_SAMPLE: i16 = -512;

const MOST_SAMPLE: i16 = 511;

// The sample of a code.
pub fn sample(code: u16) -> i16
    requires { code < code_limit }
    ensures { result ≡ sample_of code }
{
    code as i16 - MIDDLE
}

// The sample of some code.
pub fn sample_sound(s: i16) -> bool
    ensures { result ≡ sample_sound s }
{
    (LEAST_SAMPLE <= s) & (s <= MOST_SAMPLE)
}

// Each of the six codes is in range.
#[tactic(auto, unfolding(crate::specs::Codes::codes_in_range))]
pub fn codes_in_range(codes: [u16; 6]) -> bool
    ensures { result ≡ codes_in_range codes }
{
    crate::cells::below_code_limit(&codes)
}
