//! Computed examples of runs from initial values and of comparison under an assumption. These functions do nothing: each contract is an
//! example that meets what laws ask.

ghost use Rattle.std.specs.Prelude.{true, false, ℕ, ◌≡◌, List, [], ◌∷◌};
ghost use Rattle.circuit_theory.specs.declared.Mode.TheVariants.{Plain};
ghost use Rattle.circuit_theory.specs.Tree.{AreNumbered};
ghost use Rattle.circuit_theory.specs.Agree.{IsPair};
ghost use Rattle.circuit_theory.specs.Fits.{MakesDiffer};
ghost use Rattle.circuit_laws.specs.reset_laws.Reset.{AgreeFromReset, IsResetWitness, MakesDifferFromReset};
ghost use Rattle.assume_laws.specs.Assume.{IsAssumption, ReadsInputs, HaveEqualFunctionsUnder, AgreeUnder, AgreeOnwardUnder, AgreeFromResetUnder};
ghost use Rattle.assume_laws.specs.Sequences.{RowsMeet, IsWitnessUnder, IsResetWitnessUnder};
ghost use Rattle.call_rows.specs.circuit_samples.Circuits.{and_cover, first_cover, one, two, nil_a, only_a, one_from, late_from_zero, early_from_zero, constant_from_zero, toggle_with, toggled, ones, only_first};
ghost use Rattle.call_rows.specs.circuit_samples.Assumed.{AreResetSides, HasResetValue, AreResetSidesUnder, AreExposedSidesUnder, AreColumnNumbers, HasRunOverOnes};

/// A latch behind a gate against latches before it, all from 0: they agree in every cycle.
pub fn equal_from_reset()
    ensures sides { AreResetSides }
    ensures agree { AgreeFromReset late_from_zero early_from_zero }
{}

/// A latch from 0 against one from 1: they differ in cycle 0.
pub fn different_from_reset()
    ensures witness { IsResetWitness (one_from false) (one_from true) (0 ∷ []) (0 ∷ []) 1 2 1 1 1 ((false ∷ []) ∷ []) (false ∷ []) (true ∷ []) 0 false true }
    ensures differ { MakesDifferFromReset (one_from false) (one_from true) (0 ∷ []) (0 ∷ []) 1 1 ((false ∷ []) ∷ []) (false ∷ []) (true ∷ []) 0 false true }
{}

/// A run from initial values, the tree of a latch in its cycle 1, and the tree's weight.
pub fn reset_value()
    ensures { HasResetValue }
{}

/// One latch and two in a row agree where the input is always 1.
pub fn equal_under()
    ensures assumption { IsAssumption only_a 2 }
    ensures numbered { AreNumbered one two (0 ∷ []) (0 ∷ []) }
    ensures reads { ReadsInputs only_a one (0 ∷ []) }
    ensures equal { (p q : ℕ) → IsPair [] one two p q → HaveEqualFunctionsUnder only_a one two (0 ∷ []) (0 ∷ []) p q }
    ensures agree { AgreeUnder Plain only_a one two }
{}

/// Two latches differ from the constant 0 by a sequence that is 1 throughout.
pub fn different_under()
    ensures witness { IsWitnessUnder only_a two nil_a (0 ∷ []) (0 ∷ []) 2 1 1 only_first ones 2 true false }
    ensures differ { MakesDiffer two nil_a (0 ∷ []) (0 ∷ []) 2 1 ones 2 true false }
    ensures rows { RowsMeet only_a ones 2 }
    ensures run { HasRunOverOnes }
    ensures columns { AreColumnNumbers }
{}

/// A toggle whose output reads an input, against one whose output doesn't: with the latch exposed they agree where the input is 1.
pub fn exposed_under()
    ensures sides { AreExposedSidesUnder }
    ensures agree { AgreeUnder Plain only_a (toggle_with and_cover) (toggle_with first_cover) }
    ensures onward { AgreeOnwardUnder Plain toggled only_a (toggle_with and_cover) (toggle_with first_cover) }
{}

/// A latch of the input and one of the constant 1, both from 0, agree in every cycle where the input is 1.
pub fn equal_from_reset_under()
    ensures sides { AreResetSidesUnder }
    ensures agree { AgreeFromResetUnder only_a (one_from false) constant_from_zero }
{}

/// A latch from 0 and one from 1 differ in cycle 0 also where the input is 1.
pub fn different_from_reset_under()
    ensures witness { IsResetWitnessUnder only_a (one_from false) (one_from true) (0 ∷ []) (0 ∷ []) 1 2 1 1 1 only_first ((true ∷ []) ∷ []) (false ∷ []) (true ∷ []) 0 false true }
    ensures differ { MakesDifferFromReset (one_from false) (one_from true) (0 ∷ []) (0 ∷ []) 1 1 ((true ∷ []) ∷ []) (false ∷ []) (true ∷ []) 0 false true }
    ensures rows { RowsMeet only_a ((true ∷ []) ∷ []) 0 }
{}
