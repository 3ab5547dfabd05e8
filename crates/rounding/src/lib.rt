// How far a computed value is from the exact one, for every format: forward error analysis as in Higham,
// Accuracy and Stability of Numerical Algorithms, in whole numbers. An exact value is a fraction, a bound a
// number of units 1 / w, rounded upward. Proved: one rounding is within a unit roundoff's part of its result or
// half the smallest subnormal number; and for every expression tree of sums, differences, products and quotients the
// computed value is finite and within the computed bound of the exact one, where the leaves are within theirs, no node
// can overflow and each divisor is away from zero (ForwardErrorTheorem). No functions: what is said is in specs/, and
// laws of fractions, of squares and of polynomials in proofs/.
#![tactic(auto)]
