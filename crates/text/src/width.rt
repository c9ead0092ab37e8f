// Numbers at the width of their place.
ghost use Rattle.text.specs.Widths.{Fits};

// A number at the width of its place: none where it does not fit, and else the number unchanged.
pub fn fit<N: TryFrom<u64>>(number: u64) -> Option<N>
where
    N::Error: Drop,
    ensures { Fits N.TryFrom.try_from_gives number result }
{
    N::try_from(number).ok()
}
