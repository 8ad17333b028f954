//! Nets, in words.

use crate::cuts::{show_places, show_values, show_without_first};
use crate::faults::show_fault;
use crate::pieces::show_short;
use crate::row_text::show;
use blif_read::Design;
use flat_net::{Net, Port};
use flatten::flatten;
use std::rt::HostRuntime;

/// Shows what stands before the ports, and a blank and the name, of each.
fn show_ports(rt: &HostRuntime, before: &[u8], ports: &[Port]) {
    show(rt, before);
    for port in ports {
        show_short(rt, port.name.as_slice());
    }
}

/// Shows the net: its inputs, outputs, latches, gates and clock by their names.
pub(crate) fn show_net(rt: &HostRuntime, net: &Net) {
    show_ports(rt, b" in", net.inputs());
    show_ports(rt, b" out", net.outputs());
    for latch in net.latches() {
        show(rt, b" latch");
        show_short(rt, latch.name.as_slice());
    }
    for gate in net.gates() {
        if gate.out.0 < net.size() {
            show(rt, b" gate");
            show_short(rt, net.name(gate.out));
        }
    }
    if let Some(clock) = net.clock() {
        show(rt, b" clock");
        show_short(rt, clock);
    }
}

/// Shows the design's net, and with `cut` what is found in it and the net without its first latch; or the design's fault.
pub(crate) fn show_flattened(rt: &HostRuntime, design: &Design, cut: bool) {
    match flatten(rt.alloc(), design) {
        Ok(net) => {
            show_net(rt, &net);
            if cut {
                show_places(rt, &net);
                show_values(rt, &net);
                show_without_first(rt, &net);
            }
        }
        Err(error) => show_fault(rt, error),
    }
}
