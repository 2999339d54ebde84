// A graph file with where its formula stands: the Formula view of symbolic_state.rs, as much of it as the solver uses.
ghost use Rattle.std.specs.Prelude.{◌≡◌};
ghost use Rattle.formula.specs.File.{record_at};
ghost use Rattle.formula.specs.Graph.{node_is};
ghost use Rattle.formula.specs.View.{graph, symbol_of, operand_of, operands_of, is_leaf};

use super::record::{decode, record_kind};
use super::{Formula, Node};
use symbols::{Symbol, SymbolId};

// The operands of a node: none, one or two.
#[derive(Clone, Copy)]
pub enum OperandIds {
    None,
    One(SymbolId),
    Two(SymbolId, SymbolId),
}

#[derive(Clone, Copy)]
pub struct FormulaView<'a> {
    pub file: &'a [u8],
    pub layout: Formula,
}

impl<'a> FormulaView<'a> {
    pub fn count(&self) -> u32
        ensures { result ≡ self.now.layout.count }
    {
        self.layout.count
    }

    pub fn root(&self) -> SymbolId
        ensures { result ≡ self.now.layout.root }
    {
        self.layout.root
    }

    // "the record of a node is those sixteen bytes of the file itself": of an id not below the count the empty part, and of a
    // formula that is not the file's own what the file has there.
    pub fn lookup(&self, id: SymbolId) -> &'a [u8]
        ensures { result.now ≡ record_at self.now.file.now self.now.layout id.0 }
    {
        if self.layout.count <= id.0 {
            return &[];
        }
        let start = self
            .layout
            .first
            .saturating_add(16 * (id.0 as usize))
            .min(self.file.len());
        let rest = &self.file[start..];
        &rest[..rest.len().min(16)]
    }

    // The node with this id. An id not below the count, and a record of no known kind, which the check refuses, read as the
    // constant 0.
    #[tactic(auto, using(crate::proofs::Reading::node_is_lem), unfolding(crate::specs::Graph::graph_of))]
    pub fn node(&self, id: SymbolId) -> Node
        ensures { node_is result ≡ (graph self.now).node id.0 }
    {
        let record = self.lookup(id);
        decode(record_kind(record), record)
    }

    pub fn symbol(&self, id: SymbolId) -> Symbol
        ensures { result ≡ symbol_of ((graph self.now).node id.0) }
    {
        self.node(id).symbol()
    }

    // Of a leaf its own id: the source panics there.
    pub fn operand(&self, id: SymbolId) -> SymbolId
        ensures { result.0 ≡ operand_of id.0 ((graph self.now).node id.0) }
    {
        self.node(id).operand(id)
    }

    pub fn operands(&self, id: SymbolId) -> OperandIds
        ensures { result ≡ operands_of ((graph self.now).node id.0) }
    {
        self.node(id).operands()
    }

    pub fn is_operand(&self, id: SymbolId) -> bool
        ensures { result ≡ is_leaf ((graph self.now).node id.0) }
    {
        self.node(id).is_operand()
    }
}
