// The widths of numbers that the coefficients are formed in.
use arms::limits::Arms;
use circle::row_limits::Limits;
use series::terms::Terms;

pub trait Width: Limits + Terms + Arms {}

impl Width for f64 {}

impl Width for f32 {}
