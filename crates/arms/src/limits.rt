// Where the arms of the coefficients change and how many terms the series take, at each width of the numbers.
ghost use Rattle.std.specs.Prelude.{◌≡◌, ◌≤◌};
ghost use Rattle.std.specs.Float.Ieee.{mul, lt, le};
ghost use Rattle.arms.specs.Limits.{short_below, mid_below, upper_below, series_below, form_b_below, w0_below};
ghost use Rattle.arms.specs.Arm.{coeffs_arm, arm_number, series_number, arm_terms};

use ieee::Real;

// The arms by series, with more and more terms.
#[derive(Clone, Copy, PartialEq, Eq)]
pub enum SeriesArm {
    Short,
    Mid,
    Upper,
    Long,
}

// The arms of the coefficients, in rising order of delta.
#[derive(Clone, Copy, PartialEq, Eq)]
pub enum Arm {
    Series(SeriesArm),
    Closed,
}

impl Arm {
    // The arm's number in the answers: 1 to 4 for the series, 5 for the closed arm.
    pub fn number(self) -> u8
        ensures { result ≡ arm_number self }
    {
        match self {
            Arm::Series(SeriesArm::Short) => 1,
            Arm::Series(SeriesArm::Mid) => 2,
            Arm::Series(SeriesArm::Upper) => 3,
            Arm::Series(SeriesArm::Long) => 4,
            Arm::Closed => 5,
        }
    }

    // The arm at delta: a series with more and more terms, or the closed one, which a NaN takes. The last limit is
    // tested first, so that the closed arm costs one test.
    pub fn at<T: Arms>(delta: T) -> Arm
        ensures { arm_number result ≡ coeffs_arm T.format (T.float delta) }
    {
        if delta.is_below(T::series_below()) {
            if delta.is_below(T::short_below()) {
                return Arm::Series(SeriesArm::Short);
            }
            if delta.is_below(T::mid_below()) {
                return Arm::Series(SeriesArm::Mid);
            }
            if delta.is_below(T::upper_below()) {
                return Arm::Series(SeriesArm::Upper);
            }
            return Arm::Series(SeriesArm::Long);
        }
        Arm::Closed
    }
}

// The limits in delta, rising: a series arm is taken below its limit, the closed one from the last limit on.
pub trait Arms: Real {
    fn short_below() -> Self
        ensures { Self.float result ≡ short_below Self.format };

    fn mid_below() -> Self
        ensures { Self.float result ≡ mid_below Self.format };

    fn upper_below() -> Self
        ensures { Self.float result ≡ upper_below Self.format };

    fn series_below() -> Self
        ensures { Self.float result ≡ series_below Self.format };

    // v1 takes its form b at and above it, and form a on the closed arm below it.
    fn form_b_below() -> Self
        ensures { Self.float result ≡ form_b_below Self.format };

    // The limit in sigma^2 below which the closed arm sums v0 and w0 by their series.
    fn w0_below() -> Self
        ensures { Self.float result ≡ w0_below Self.format };

    // The series' term count: within what the series accept, so no arm gets refusal 4.
    fn arm_terms(arm: SeriesArm) -> usize
        ensures count { result ≡ arm_terms Self.format (series_number arm) }
        ensures accepted { result ≤ 28 };
}

impl Arms for f64 {
    fn short_below() -> f64 {
        5.424690937011326e-5 // 3f0c70e59cfc9f1f
    }

    fn mid_below() -> f64 {
        0.042169650342858224 // 3fa59742aa36710d
    }

    fn upper_below() -> f64 {
        0.26416483203860924 // 3fd0e8139c96fc79
    }

    fn series_below() -> f64 {
        1.9809567785503388 // 3fffb1ffbc2a9c8c
    }

    // Form b wherever the arm is closed.
    fn form_b_below() -> f64 {
        f64::series_below()
    }

    fn w0_below() -> f64 {
        0.5829415347136074 // 3fe2a77501626657
    }

    fn arm_terms(arm: SeriesArm) -> usize {
        match arm {
            SeriesArm::Short => 6,
            SeriesArm::Mid => 11,
            SeriesArm::Upper => 14,
            SeriesArm::Long => 19,
        }
    }
}

impl Arms for f32 {
    fn short_below() -> f32 {
        0.0009646616 // 3a7ce158
    }

    fn mid_below() -> f32 {
        0.1286397 // 3e03ba20
    }

    fn upper_below() -> f32 {
        0.62643355 // 3f205df3
    }

    fn series_below() -> f32 {
        2.3713737 // 4017c496
    }

    fn form_b_below() -> f32 {
        5.8294153 // 40ba8a92
    }

    fn w0_below() -> f32 {
        0.58294153 // 3f153ba8
    }

    fn arm_terms(arm: SeriesArm) -> usize {
        match arm {
            SeriesArm::Short => 4,
            SeriesArm::Mid => 7,
            SeriesArm::Upper => 9,
            SeriesArm::Long => 11,
        }
    }
}

// Whether v1 takes its form b.
pub fn on_form_b<T: Arms>(delta: T) -> bool
    ensures { result ≡ le (form_b_below T.format) (T.float delta) }
{
    T::form_b_below().is_at_most(delta)
}

// Whether the closed arm sums v0 and w0 by their series.
pub fn w0_small<T: Arms>(sigma: T) -> bool
    ensures { result ≡ lt (mul T.format (T.float sigma) (T.float sigma)) (w0_below T.format) }
{
    (sigma * sigma).is_below(T::w0_below())
}
