//! The trees of one design.

ghost use Rattle.design_trees.specs.OneTree.{TreesAreOne};

/// What is read in one net unfolds in the other to the same tree, where inputs have the numbers of their names: so no tree depends on
/// which net a design was loaded as, on an order of evaluation, or on the numbers of inputs that nothing reads.
pub fn trees_are_one()
    ensures { TreesAreOne }
{}
