//! A law of the answers. The function does nothing: its contract is the law.

ghost use Rattle.plain_check.specs.plain_form.Laws.{OneTreeHasNoLimit};

/// Where both sides of each pair unfold to one tree, the verdict isn't the limit.
pub fn one_tree_has_no_limit()
    ensures { OneTreeHasNoLimit }
{}
