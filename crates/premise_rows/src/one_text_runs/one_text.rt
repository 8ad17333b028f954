//! That the nets of a text are one, and that a text is equal to itself. The functions do nothing: each contract is a law or an example.

ghost use Rattle.premise_rows.specs.one_text_runs.one_text.OneText.{OneTreeIsEqual, OneTextIsEqual, UnfoldedIsComparable, TextsCanBeUnfolded};
ghost use Rattle.premise_rows.specs.one_text_runs.one_text.TextNets.{TextNetsAreOne, ToldCyclesAreOne, OneNetIsEnough};

/// A text loads as one net, up to the numbers of its signals.
pub fn text_nets_are_one()
    ensures { TextNetsAreOne }
{}

/// Whether interfaces match, a cycle of latches is left, or a side is too large, is the same of all nets of two texts.
pub fn one_net_is_enough()
    ensures { OneNetIsEnough }
{}

/// The cycles that can be told of a latch graph are the same of all nets of a text.
pub fn told_cycles_are_one()
    ensures { ToldCyclesAreOne }
{}

/// Where both sides of each pair have one function tree, the verdict is equal, however few conflicts are allowed.
pub fn one_tree_is_equal()
    ensures { OneTreeIsEqual }
{}

/// Two nets that one text loads as are equal wherever they are compared, however few conflicts are allowed.
pub fn one_text_is_equal()
    ensures { OneTextIsEqual }
{}

/// A text whose latches lie on no cycle, and that isn't too large, can be compared with itself.
pub fn unfolded_is_comparable()
    ensures { UnfoldedIsComparable }
{}

/// Those without a cycle can be unfolded.
pub fn texts_can_be_unfolded()
    ensures { TextsCanBeUnfolded }
{}
