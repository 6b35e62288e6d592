// Whether two versions of a page have the same shape: each block has the same operations in both, in whatever order and
// at whatever times, and all other words are equal.
//
// It stands on `block_table` for where the blocks are, and on `list_encoding` for what the bits of a word mean.
// `same_shape` promises exactly that relation (specs/Shape.antt), and takes no memory. `laws` says what holds of it
// (specs/Laws.antt): it is an equivalence, and it holds where each block's words were put in another order and given
// other head marks and pauses.
#![tactic(auto)]

pub mod laws;
mod parts;
mod shape;

pub use shape::same_shape;
