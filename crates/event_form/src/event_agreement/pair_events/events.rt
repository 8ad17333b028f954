//! Two circuits with the class map of both.

ghost use Rattle.std.specs.Prelude.{◌≡◌};
ghost use Rattle.edbf_unfold.specs.class_queries.Laws.{AreKept};
ghost use Rattle.event_form.specs.event_agreement.pair_events.View.{IsEvents};
ghost use Rattle.event_form.specs.event_agreement.pair_events.Within.{IsCountedOnce};

mod parts;
mod unfolding;

use crate::event_agreement::{Counter, EventCircuit, EventGraph};
use std::marker::Model;

/// Two circuits whose latches have their classes, the graph of their functions over inputs at event nodes, and what their unfoldings weigh.
pub struct Events {
    left: EventCircuit,
    right: EventCircuit,
    graph: EventGraph,
    left_count: Counter,
    right_count: Counter,
    classes: u32,
}

/// It is let go by one call: an owner isn't taken apart field by field at each way out.
impl Drop for Events {
    fn drop(self) {
        let Events {
            left: _,
            right: _,
            graph: _,
            left_count: _,
            right_count: _,
            classes: _,
        } = self;
    }
}

impl Model for Events {
    ghost use Rattle.event_form.specs.event_agreement.pair_events.View.{EventsView, IsEvents};

    ghost Value = { EventsView };

    ghost view = { λ e. record { left = e.left; right = e.right; events = e.graph; left_count = e.left_count; right_count = e.right_count; count = e.classes } };

    ghost invariant = { λ e. IsEvents (record { left = e.left; right = e.right; events = e.graph; left_count = e.left_count; right_count = e.right_count; count = e.classes }) };
}

impl Events {
    /// The two circuits with their class map, of so many classes besides `always`, the graph of their enables, and what these have visited.
    pub fn new(
        left: EventCircuit,
        right: EventCircuit,
        graph: EventGraph,
        left_count: Counter,
        right_count: Counter,
        classes: u32,
    ) -> Events
        requires { IsEvents (record { left = left; right = right; events = graph; left_count = left_count; right_count = right_count; count = classes }) }
        ensures { result ≡ record { left = left; right = right; events = graph; left_count = left_count; right_count = right_count; count = classes } }
    {
        Events {
            left,
            right,
            graph,
            left_count,
            right_count,
            classes,
        }
    }

    /// Tells a proof what each such value keeps. It does nothing.
    pub fn keeps(&self)
        ensures events { IsEvents self.now }
        ensures kept { AreKept self.now.left self.now.right self.now.events }
        ensures once { IsCountedOnce self.now }
    {
        self.left.keeps();
        self.right.keeps();
        self.graph.keeps();
        self.left_count.keeps();
        self.right_count.keeps();
    }
}
