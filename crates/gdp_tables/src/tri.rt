//! Truth values of which some are open, and their connectives as tables.

ghost use Rattle.std.specs.Prelude.{◌≡◌};
ghost use Rattle.gdp_tables.specs.Readings.{not_of, and_of, or_of, same_of};

/// What is known of a truth value.
#[derive(Clone, Copy, Debug, PartialEq, Eq)]
pub enum Tri {
    /// It is false.
    No,
    /// It is true.
    Yes,
    /// It may be either.
    Open,
}

// A table of all cases: a row for each value of the first, with the answers where the second is No, Yes and Open.
macro_rules! table {
    ($a:expr; [$no:ident, $yes:ident, $open:ident]) => {
        match $a {
            Tri::No => Tri::$no,
            Tri::Yes => Tri::$yes,
            Tri::Open => Tri::$open,
        }
    };
    ($a:expr, $b:expr; $($first:ident: [$no:ident, $yes:ident, $open:ident]),*) => {
        match ($a, $b) {
            $(
                (Tri::$first, Tri::No) => Tri::$no,
                (Tri::$first, Tri::Yes) => Tri::$yes,
                (Tri::$first, Tri::Open) => Tri::$open,
            )*
        }
    };
}

/// The opposite, open where the value is.
pub fn tri_not(a: Tri) -> Tri
    ensures { result ≡ not_of a }
{
    table!(a; [Yes, No, Open])
}

/// No where one is No, Yes where both are Yes, else Open.
pub fn tri_and(a: Tri, b: Tri) -> Tri
    ensures { result ≡ and_of a b }
{
    table!(a, b; No: [No, No, No], Yes: [No, Yes, Open], Open: [No, Open, Open])
}

/// Yes where one is Yes, No where both are No, else Open.
pub fn tri_or(a: Tri, b: Tri) -> Tri
    ensures { result ≡ or_of a b }
{
    table!(a, b; No: [No, Yes, Open], Yes: [Yes, Yes, Yes], Open: [Open, Yes, Open])
}

/// Open where one is Open, Yes where both are the same, else No.
pub fn tri_same(a: Tri, b: Tri) -> Tri
    ensures { result ≡ same_of a b }
{
    table!(a, b; No: [Yes, No, Open], Yes: [No, Yes, Open], Open: [Open, Open, Open])
}
