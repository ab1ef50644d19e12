//! Laws of the definitions, each a theorem that its function's contract names.

ghost use Rattle.base_decimals.specs.Laws.{CutIsFloor, EvenIsNearest, FormIsExact, FractionsKeepOrder, ReadIsWritten, UpIsCeiling, WrittenIsRead};

/// A cut fraction is the greatest whole number that is not above it.
pub fn cut_is_floor()
    ensures { CutIsFloor }
{}

/// A fraction rounded upward is the least whole number that is not below it.
pub fn up_is_ceiling()
    ensures { UpIsCeiling }
{}

/// A fraction rounded half to even is a nearest whole number, and the even one at a tie.
pub fn even_is_nearest()
    ensures { EvenIsNearest }
{}

/// The text of a decimal is canonical and says that decimal.
pub fn written_is_read()
    ensures { WrittenIsRead }
{}

/// A canonical text says a decimal, whose text it is.
pub fn read_is_written()
    ensures { ReadIsWritten }
{}

/// A text says a decimal exactly where it is 1 to 20 digits, alone or with a point and 1 to 18 digits.
pub fn form_is_exact()
    ensures { FormIsExact }
{}

/// Decimals are ordered as the fractions that they are.
pub fn fractions_keep_order()
    ensures { FractionsKeepOrder }
{}
