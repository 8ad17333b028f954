//! Which of two variables, and of two event nodes, goes first.

ghost use Rattle.std.specs.Prelude.{◌≡◌, ◌<◌, ◌≤◌, length};
ghost use Rattle.std.specs.Ordering.{nat_cmp, ordering_then};
ghost use Rattle.event_nodes.specs.Nodes.{path_of};
ghost use Rattle.event_nodes.specs.event_variables.Variables.{Stands, NodesStand, PathsStand};

use crate::EventGraph;
use std::cmp::Ordering;

/// Which of two variables goes first.
pub fn variable_order(events: &EventGraph, u: u32, v: u32) -> Ordering
    requires left { u < length events.now.places }
    requires right { v < length events.now.places }
    ensures { Stands events.now u v result }
{
    events.keeps();
    let (left_input, left_node) = events.place(u);
    let (right_input, right_node) = events.place(v);
    if left_node == right_node {
        return left_input.cmp(&right_input);
    }
    node_order(events, left_node, right_node)
}

/// Which of two event nodes goes first: the one with the longer path, or by path in the order of class numbers.
fn node_order(events: &EventGraph, m: u32, n: u32) -> Ordering
    requires left { m ≤ length events.now.children }
    requires right { n ≤ length events.now.children }
    ensures { NodesStand events.now.children m n result }
{
    let left = path_length(events, m);
    let right = path_length(events, n);
    if left != right {
        return right.cmp(&left);
    }
    path_order(events, m, n)
}

/// How many steps lead from the root to the node.
fn path_length(events: &EventGraph, node: u32) -> u32
    requires { node ≤ length events.now.children }
    ensures { result ≡ length (path_of events.now.children node) }
{
    events.keeps();
    let mut steps = 0;
    let mut at = node;
    while at > 0 {
        let (parent, _) = events.step(at);
        at = parent;
        steps += 1;
    }
    steps
}

/// Which of two paths of one length goes first, by the first class, read from the root, in which they differ.
fn path_order(events: &EventGraph, m: u32, n: u32) -> Ordering
    requires left { m ≤ length events.now.children }
    requires right { n ≤ length events.now.children }
    requires one_length { length (path_of events.now.children m) ≡ length (path_of events.now.children n) }
    ensures { PathsStand (path_of events.now.children m) (path_of events.now.children n) result }
{
    events.keeps();
    let mut order = Ordering::Equal;
    let mut left = m;
    let mut right = n;
    while left != right {
        let (left_parent, left_class) = events.step(left);
        let (right_parent, right_class) = events.step(right);
        order = first_of(left_class, right_class, order);
        left = left_parent;
        right = right_parent;
    }
    order
}

/// The order of the two classes, or where they are one the order of what comes behind them.
fn first_of(left: u32, right: u32, behind: Ordering) -> Ordering
    ensures { result ≡ ordering_then (nat_cmp left right) behind }
{
    match left.cmp(&right) {
        Ordering::Equal => behind,
        order => order,
    }
}
