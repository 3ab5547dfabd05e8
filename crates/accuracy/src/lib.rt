// How accurate the engine is, in absolute errors. Proved, at any format and in any box whose bound is computed: the
// action of a pose (ActionTheorem), by a matrix formed once (ManyPointsTheorem), also beside the true rotation q v
// q̄ / |q|² (RotationTheorem), the product of quaternions, the Newton step and the translation of an inverse
// (QuaternionTheorem). At both widths, rounding and truncation together, against exact sums of every greater
// length: the nine coefficients on the four arms of the series (CoefficientsTheorem), |v|² (NormTheorem), and with
// it the exponential below the limits, beside the exact |φ|² (ExponentialTheorem). On the closed arm, against the
// closed forms of exact numbers (ClosedFormTheorem) and of the values that are handed in (ClosedArmTheorem). No
// functions: crate error_bounds has them, and docs/ACCURACY.md the numbers.
#![tactic(auto)]
