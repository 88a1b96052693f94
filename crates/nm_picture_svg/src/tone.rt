//! The tones that tell operators apart.

ghost use Rattle.std.specs.Prelude.{◌≡◌};
ghost use Rattle.nm_picture_svg.specs.Tone as spec;

use crate::shape::Tone;

// The tone of one in five.
fn tone_in_turn(place: u32) -> Tone
    ensures { result ≡ spec.tone_in_turn place }
{
    if place == 0 {
        return Tone::FirstOperator;
    }
    if place == 1 {
        return Tone::SecondOperator;
    }
    if place == 2 {
        return Tone::ThirdOperator;
    }
    if place == 3 {
        return Tone::FourthOperator;
    }
    Tone::FifthOperator
}

/// The tone of what an operator holds, the first of whom has number 0. Six operators have five tones: the sixth has the first's.
pub fn operator_tone(number: u32) -> Tone
    ensures { result ≡ spec.operator_tone number }
{
    tone_in_turn(number % 5)
}
