// How many terms the series take, where it depends on the width of the numbers.
ghost use Rattle.std.specs.Prelude.{◌≡◌};
ghost use Rattle.series.specs.Series.{fewest_terms, w0_terms};

use tables::Tables;

pub trait Terms: Tables {
    // The terms of w0 of the closed arm at small sigma; v0 has one more.
    fn w0_terms() -> usize
        ensures { result ≡ w0_terms Self.format };

    // The fewest terms that an arm of the coefficients takes.
    fn fewest_terms() -> usize
        ensures { result ≡ fewest_terms Self.format };
}

impl Terms for f64 {
    fn w0_terms() -> usize {
        15
    }

    fn fewest_terms() -> usize {
        6
    }
}

impl Terms for f32 {
    fn w0_terms() -> usize {
        8
    }

    fn fewest_terms() -> usize {
        4
    }
}
