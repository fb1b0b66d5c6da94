//! What `make` and `bench` promise, each law the contract of a function with an empty body.

ghost use Rattle.gdp_commands.specs.MakeLaws.{BenchesOnce, BenchesTruly, MakesExactly};

/// What `make` answers with status 0 is the canonical text of the model of the seed and the size.
pub fn makes_exactly()
    ensures { MakesExactly }
{}

/// What `bench` answers with status 0 is true of that model.
pub fn benches_truly()
    ensures { BenchesTruly }
{}

/// The words fix what `bench` answers.
pub fn benches_once()
    ensures { BenchesOnce }
{}
