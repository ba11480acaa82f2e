//! Points of an iteration space, windows of it, and what the points of a set do to the elements of a tensor, one after
//! another (MLIR: the linalg dialect). Definitions and lemmas alone, over any type of elements: what structured
//! operations mean, and why tiles, slices and other orders of their points change nothing, rests on them. The
//! definitions stand in `specs`: `Points` and `Windows` (points, indices, windows), `Folds` (what points do in turn),
//! `Operands` (operands read through maps), `Orders` (free order, interchange), `Splitting` (split reductions).
#![tactic(auto)]
