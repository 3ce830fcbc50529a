// What comes out over any calls.
ghost use Rattle.postpone_filter.specs.Runs.{TreeOrder};

/// Whatever the calls on an order, and however those of different nodes are interleaved: what has left, and then all
/// bytes that wait, is the main request's text. That has each node's bytes in the order of its own calls, each child's
/// text at the place where it was added, and each byte once.
pub fn tree_order()
    ensures { TreeOrder }
{}
