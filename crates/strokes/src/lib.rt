// Resetting in two strokes (document 02, Paper 2): the one mask for what two masks name. The law, that pressing two
// masks one after another is pressing their union, is `TwoStrokesLaw` in specs/Strokes.antt.
#![tactic(auto)]

ghost use Rattle.std.specs.Prelude.{◌≡◌};
ghost use Rattle.strokes.specs.Strokes.{union_of};

// Internal: the union of two masks, for the program that presses them.
pub fn union(a: u8, b: u8) -> u8
    ensures { result ≡ union_of a b }
{
    a | b
}
