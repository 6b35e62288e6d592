// What holds of shapes, each as the contract of a function that does nothing.
ghost use Rattle.size_invariance.specs.Laws.{ShapesAreReflexive, ShapesAreSymmetric, ShapesAreTransitive, PartsDecideLikeness, RearrangementsArePermutations, ReorderingsKeepOperations, ReorderingsKeepTheShape};

/// A page has the shape that it has itself.
pub fn shapes_are_reflexive()
    ensures { ShapesAreReflexive }
{}

/// If one page has the shape of another, then this has the shape of the first.
pub fn shapes_are_symmetric()
    ensures { ShapesAreSymmetric }
{}

/// Two pages that have the shape of a third have the same shape.
pub fn shapes_are_transitive()
    ensures { ShapesAreTransitive }
{}

/// Two words are alike exactly where their operation parts are equal.
pub fn parts_decide_likeness()
    ensures { PartsDecideLikeness }
{}

/// A list is a rearrangement of another exactly where it is a permutation of it.
pub fn rearrangements_are_permutations()
    ensures { RearrangementsArePermutations }
{}

/// Words that are put in another order, and given other head marks and pauses, have the same operations.
pub fn reorderings_keep_operations()
    ensures { ReorderingsKeepOperations }
{}

/// A page has the same shape where the words of each block are put in another order, and given other head marks and
/// pauses, and the words in no block are 0 before and after.
pub fn reorderings_keep_the_shape()
    ensures { ReorderingsKeepTheShape }
{}
