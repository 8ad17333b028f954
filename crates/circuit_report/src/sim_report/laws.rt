//! What holds of every simulation. The function does nothing: its contract is a law.

ghost use Rattle.std.specs.Prelude.{◌≡◌, ◌<◌, ℕ, Bool, true, List, Option, None, length};
ghost use Rattle.circuit_theory.specs.declared.Mode.{Mode};
ghost use Rattle.circuit_theory.specs.Run.{IsResetRun};
ghost use Rattle.flat_net.specs.View.{circuit_of};
ghost use Rattle.circuit_report.specs.sim_report.Checks.{first_misfit, power_of};
ghost use Rattle.circuit_report.specs.sim_report.Report.{IsSimulated, IsSimReport};

use flat_net::Net;
use witness_report::Stimulus;

/// Where nothing is a misfit there is one run of the net over the stimulus, and so one report. With `reset` it is a run from the
/// initial values of the net's circuit.
pub fn has_simulation(net: &Net, stimulus: &Stimulus)
    ensures exists { (power : Option (List ℕ)) (reset : Bool) → first_misfit net.now stimulus.now.names power ≡ None →
        (run : ℕ → ℕ → Bool) × IsSimulated net.now stimulus.now.names stimulus.now.rows (power_of net.now power reset) run }
    ensures one { (power : Option (List ℕ)) (reset : Bool) (run other : ℕ → ℕ → Bool) → first_misfit net.now stimulus.now.names power ≡ None →
        IsSimulated net.now stimulus.now.names stimulus.now.rows (power_of net.now power reset) run → IsSimulated net.now stimulus.now.names stimulus.now.rows (power_of net.now power reset) other →
        (t p : ℕ) → t < length stimulus.now.rows → p < length net.now.drivers → other t p ≡ run t p }
    ensures report { (mode : Mode) (power : Option (List ℕ)) (reset : Bool) (text other : List ℕ) → first_misfit net.now stimulus.now.names power ≡ None →
        IsSimReport mode net.now stimulus.now.names stimulus.now.rows power reset text → IsSimReport mode net.now stimulus.now.names stimulus.now.rows power reset other → text ≡ other }
    ensures resets { (power : Option (List ℕ)) (run : ℕ → ℕ → Bool) → first_misfit net.now stimulus.now.names power ≡ None →
        IsSimulated net.now stimulus.now.names stimulus.now.rows (power_of net.now power true) run → IsResetRun (circuit_of net.now) (length stimulus.now.rows) run }
{
    net.keeps();
    let _ = &stimulus.rows;
}
