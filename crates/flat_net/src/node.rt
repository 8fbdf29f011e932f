use crate::Edge;

/// A node of a flat netlist. It has one bit in each cycle.
#[derive(Clone, Copy, Debug, PartialEq, Eq)]
pub enum Node {
    /// 0 in each cycle.
    Zero,
    /// The input bit with this number.
    Input(u32),
    /// The register bit with this number: its value before the edge.
    Reg(u32),
    /// A bit of a net, which has the value of what drives it.
    Buf(Edge),
    And(Edge, Edge),
    Xor(Edge, Edge),
}
