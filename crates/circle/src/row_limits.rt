// How many terms of a row an arm reads, and below which limit it is taken, at each width of the numbers.
ghost use Rattle.std.specs.Prelude.{◌≡◌};
ghost use Rattle.tables.specs.Rows.{row_named};
ghost use Rattle.circle.specs.Limits.{row_limit, row_terms, short_terms, exp_short_limit, five_short_limit};

use tables::{Row, Tables};

pub trait Limits: Tables {
    // How many terms of a row the whole arm reads.
    fn terms(row: Row) -> usize
        ensures { result ≡ row_terms Self.format (row_named row) };

    // The limit of a row: the members of a group are on their series below it.
    fn below(row: Row) -> Self
        ensures { Self.float result ≡ row_limit Self.format (row_named row) };

    // How many terms the short arm reads. The members of a group take it together, below the least of
    // their short limits.
    fn short_terms() -> usize
        ensures { result ≡ short_terms Self.format };

    // The short limit of the group of k and cos_half.
    fn exp_short_below() -> Self
        ensures { Self.float result ≡ exp_short_limit Self.format };

    // The short limit of the group of five.
    fn five_short_below() -> Self
        ensures { Self.float result ≡ five_short_limit Self.format };
}

impl Limits for f64 {
    fn terms(row: Row) -> usize {
        match row {
            Row::K => 11,
            Row::A => 12,
            Row::B => 12,
            Row::D => 12,
            Row::CosHalf => 10,
        }
    }

    fn below(row: Row) -> f64 {
        match row {
            Row::K => 9.646616199111993, // 40234b1147487fea
            Row::A => 5.829415347136074, // 4017515241baffec
            Row::B => 7.773650302387758, // 401f1837c8ed2f09
            Row::D => 8.353625469578262, // 4020b50e65c5be18
            Row::CosHalf => 5.232991146814947, // 4014ee953b2f4f99
        }
    }

    fn short_terms() -> usize {
        5
    }

    // The limit of cos_half.
    fn exp_short_below() -> f64 {
        0.005232991146814947 // 3f756f305d5f8ce6
    }

    // The limit of d.
    fn five_short_below() -> f64 {
        0.0026416483203860926 // 3f65a3f024984d68
    }
}

impl Limits for f32 {
    fn terms(row: Row) -> usize {
        match row {
            Row::K => 7,
            Row::A => 9,
            Row::B => 8,
            Row::D => 8,
            Row::CosHalf => 6,
        }
    }

    fn below(row: Row) -> f32 {
        match row {
            Row::K => 9.646616, // 411a588a
            Row::A => 9.646616, // 411a588a
            Row::B => 8.9768715, // 410fa144
            Row::D => 9.646616, // 411a588a
            Row::CosHalf => 4.531584, // 409102bc
        }
    }

    fn short_terms() -> usize {
        3
    }

    // The limit of cos_half.
    fn exp_short_below() -> f32 {
        0.001910953 // 3afa78f1
    }

    // The limit of a.
    fn five_short_below() -> f32 {
        0.001 // 3a83126f
    }
}
