// The questions of documents 01 and 02 as errors, each by its number.
ghost use Rattle.std.specs.Prelude.{◌≡◌};
ghost use Rattle.questions.specs.Number.{number};

// The first question that a sheet does not pass.
#[derive(Clone, Copy, Debug, PartialEq, Eq)]
pub enum Refusal {
    // The answer buffer has no room for the largest certificate.
    Room = 1,
    // The header's words are not of their kinds.
    Header = 2,
    // p is no prime from 11 up to 2^28.
    Prime = 3,
    // The degree is not odd, or not in its bounds.
    Degree = 4,
    // A value is not below p.
    Values = 5,
    // The words after the header are not those of the form.
    Words = 6,
    // A curve is singular.
    Singular = 7,
    // The kernel polynomial does not meet R1; on a kernel sheet, its leading coefficient is not 1.
    KernelPolynomial = 8,
    // The numerator or the count of rational abscissas is another one.
    Numerator = 9,
    // R3 does not hold.
    Equation = 10,
    // No polynomial meets the rules; for a kernel sheet, no codomain does.
    NoIsogeny = 11,
    // The point is none of the domain.
    Point = 12,
    // The first map does not end where the second one begins.
    Joint = 13,
    // The product of the degrees is too large.
    Product = 14,
}

impl From<Refusal> for u32 {
    ghost from_gives = { λ refusal n. n ≡ number refusal };

    fn from(refusal: Refusal) -> u32 {
        refusal as u32
    }
}
