//! The laws, each the contract of a function with an empty body.

ghost use Rattle.int_linear.specs.Laws.{ProductsSpread, SignsOfProducts, FactorsCancel, DotIsLinear, DotIsInner, InnerIsLinear, OnePlaceAlone, SumsSwap, CombinationOfRows, EveryRowHasGcd, DividedIsPrimitive, OnePrimitiveRow};

/// Products spread over sums, and their grouping and order do not count.
pub fn products_spread()
    ensures { ProductsSpread }
{}

/// The signs of two factors say the sign of their product.
pub fn signs_of_products()
    ensures { SignsOfProducts }
{}

/// A positive factor keeps order and equality, and can be taken away again.
pub fn factors_cancel()
    ensures { FactorsCancel }
{}

/// The sum of a row's terms at a sum of numbers is the sum of the sums, and so with multiples.
pub fn dot_is_linear()
    ensures { DotIsLinear }
{}

/// The sum of a row's terms is the inner product of its coefficients with the numbers.
pub fn dot_is_inner()
    ensures { DotIsInner }
{}

/// The inner product of a combination of two rows is the combination of theirs.
pub fn inner_is_linear()
    ensures { InnerIsLinear }
{}

/// A sum of which the terms at all places but one are 0 is the term at that place.
pub fn one_place_alone()
    ensures { OnePlaceAlone }
{}

/// A sum over a table is the same by rows and by columns.
pub fn sums_swap()
    ensures { SumsSwap }
{}

/// A combination of rows meets numbers as the combination of what each row gives there.
pub fn combination_of_rows()
    ensures { CombinationOfRows }
{}

/// A row has exactly one greatest common divisor.
pub fn every_row_has_gcd()
    ensures { EveryRowHasGcd }
{}

/// A row divided by its greatest common divisor is primitive.
pub fn divided_is_primitive()
    ensures { DividedIsPrimitive }
{}

/// Two primitive rows that share a positive multiple are the same row.
pub fn one_primitive_row()
    ensures { OnePrimitiveRow }
{}
