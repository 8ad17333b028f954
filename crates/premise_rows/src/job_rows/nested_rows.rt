//! What meets the premises of agreement onward and of what a sequence shows of circuits with latches cut out: a design whose latch on a
//! cycle lies inside of an instance, and the text that spells it. The functions do nothing: each contract is an example.

ghost use Rattle.pair_texts.specs.design_rows.Small.{NestedIsSmall};
ghost use Rattle.premise_rows.specs.job_rows.nested_rows.Cutting.{NestedIsCut, NestedMeetsOnward, NestedIsObeyed};
ghost use Rattle.premise_rows.specs.job_rows.nested_rows.CutOpen.{NestedIsCutOpen};

/// A latch inside of an instance that lies on a cycle, and is to be cut open; and a latch behind the instance.
pub fn nested_is_small()
    ensures { NestedIsSmall }
{}

/// The latch inside of the instance is a minimal cut.
pub fn nested_is_cut()
    ensures { NestedIsCut }
{}

/// Two runs with equal inputs whose outputs differ at first, and a cycle in which all pairs are settled.
pub fn nested_meets_onward()
    ensures { NestedMeetsOnward }
{}

/// Any sequence over the input and the latch inside is obeyed by a run of the design with that latch cut out.
pub fn nested_is_obeyed()
    ensures { NestedIsObeyed }
{}

/// A latch inside of an instance is a minimal cut; two runs meet what agreement onward asks for, and each sequence is obeyed.
pub fn nested_is_cut_open()
    ensures { NestedIsCutOpen }
{}
