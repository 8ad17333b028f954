//! Signals as event functions.

ghost use Rattle.std.specs.Prelude.{◌≡◌, ◌<◌, length, IfOk, OnOk};
ghost use Rattle.circuit_theory.specs.declared.Side.TheVariants.{A, B};
ghost use Rattle.circuit_theory.specs.Joined.{Left, Right};
ghost use Rattle.event_nodes.specs.Nodes.{GrowsEvents};
ghost use Rattle.event_form.specs.event_agreement.event_pairs.Functions.{IsEventFunction};
ghost use Rattle.event_form.specs.event_agreement.pair_events.Counted.{GoOnCounting, IsRefusedBy};
ghost use Rattle.event_form.specs.event_agreement.pair_events.View.{IsWithinLimits, circuit_at, side_of_both, signal_at};

use super::Events;
use crate::event_agreement::{EventUnfoldError, Side, Signal, SignalFunction, unfold_signal};
use std::alloc::Global;

impl Events {
    /// A signal of one circuit as an event function at the root. `TooManyEvents` comes exactly where the unfoldings of both circuits, those
    /// of the enables and of earlier calls among them, reach more than 10,000 event nodes with this one; `TooLarge` where they don't, and
    /// those of this circuit weigh more than 2,000,000 with it. After a refusal the circuits and their classes are as they were, and
    /// nothing more can be unfolded. `NoMemory` comes also where the event graph might get 2^30 nodes.
    pub fn unfold(
        &mut self,
        alloc: Global,
        side: Side,
        s: Signal,
    ) -> Result<SignalFunction, EventUnfoldError>
        requires signal { s.0 < length (circuit_at side self.old).net.drivers }
        requires within { IsWithinLimits self.old }
        ensures function { IfOk result (IsEventFunction (side_of_both self.new) self.new.events (signal_at side s.0)) }
        ensures within { OnOk result (IsWithinLimits self.new) }
        ensures grows { OnOk result (GrowsEvents self.old.events self.new.events) }
        ensures counted { OnOk result (GoOnCounting side s.0 self.old self.new) }
        ensures refused { IsRefusedBy side s.0 self.old result }
        ensures same { self.new ≡ record self.old { events = self.new.events; left_count = self.new.left_count; right_count = self.new.right_count } }
    {
        match side {
            Side::A => self.unfold_left(alloc, s),
            Side::B => self.unfold_right(alloc, s),
        }
    }

    /// The same of the first circuit.
    fn unfold_left(&mut self, alloc: Global, s: Signal) -> Result<SignalFunction, EventUnfoldError>
        requires signal { s.0 < length self.old.left.net.drivers }
        requires within { IsWithinLimits self.old }
        ensures function { IfOk result (IsEventFunction (side_of_both self.new) self.new.events (Left s.0)) }
        ensures within { OnOk result (IsWithinLimits self.new) }
        ensures grows { OnOk result (GrowsEvents self.old.events self.new.events) }
        ensures counted { OnOk result (GoOnCounting A s.0 self.old self.new) }
        ensures refused { IsRefusedBy A s.0 self.old result }
        ensures same { self.new ≡ record self.old { events = self.new.events; left_count = self.new.left_count } }
    {
        self.keeps();
        let made = unfold_signal(alloc, &self.left, &mut self.graph, &mut self.left_count, s);
        self.keeps();
        made
    }

    /// And of the second.
    fn unfold_right(&mut self, alloc: Global, s: Signal) -> Result<SignalFunction, EventUnfoldError>
        requires signal { s.0 < length self.old.right.net.drivers }
        requires within { IsWithinLimits self.old }
        ensures function { IfOk result (IsEventFunction (side_of_both self.new) self.new.events (Right s.0)) }
        ensures within { OnOk result (IsWithinLimits self.new) }
        ensures grows { OnOk result (GrowsEvents self.old.events self.new.events) }
        ensures counted { OnOk result (GoOnCounting B s.0 self.old self.new) }
        ensures refused { IsRefusedBy B s.0 self.old result }
        ensures same { self.new ≡ record self.old { events = self.new.events; right_count = self.new.right_count } }
    {
        self.keeps();
        let made = unfold_signal(
            alloc,
            &self.right,
            &mut self.graph,
            &mut self.right_count,
            s,
        );
        self.keeps();
        made
    }
}
