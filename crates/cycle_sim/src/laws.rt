//! What holds of every run. The functions do nothing: each contract is a law.

ghost use Rattle.std.specs.Prelude.{◌≡◌, ◌<◌, ℕ, Bool, List, length, All};
ghost use Rattle.circuit_theory.specs.Run.{IsResetRun};
ghost use Rattle.flat_net.specs.View.{circuit_of};
ghost use Rattle.cycle_sim.specs.Runs.{IsRunFrom, reset_bits};

use flat_net::Net;

/// There is a run of the net from each power-up by each rows of inputs, and only one.
pub fn has_run(net: &Net)
    ensures exists { (power : List Bool) (rows : List (List Bool)) → length power ≡ length net.now.latches → All (λ row. length row ≡ length net.now.inputs) rows →
        (run : ℕ → ℕ → Bool) × IsRunFrom net.now power rows run }
    ensures one { (power : List Bool) (rows : List (List Bool)) (run other : ℕ → ℕ → Bool) → IsRunFrom net.now power rows run → IsRunFrom net.now power rows other →
        (t p : ℕ) → t < length rows → p < length net.now.drivers → other t p ≡ run t p }
{
    net.keeps();
}

/// A run from initial values, with any bits at the latches without one, is a reset run. And each reset run is the one from initial
/// values with its own bits.
pub fn resets(net: &Net)
    ensures starts { (free : List Bool) (rows : List (List Bool)) (run : ℕ → ℕ → Bool) → length free ≡ length net.now.latches →
        IsRunFrom net.now (reset_bits net.now.latches free) rows run → IsResetRun (circuit_of net.now) (length rows) run }
    ensures each { (power : List Bool) (rows : List (List Bool)) (run : ℕ → ℕ → Bool) → IsRunFrom net.now power rows run → IsResetRun (circuit_of net.now) (length rows) run →
        reset_bits net.now.latches power ≡ power }
{
    net.keeps();
}
