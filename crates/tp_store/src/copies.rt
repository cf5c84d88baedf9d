// Equal facts to those of a tree, of the variables that are asked for, by a look at each of its nodes.
ghost use Rattle.std.specs.Prelude.{◌≡◌, ◌++◌, OnOk};
ghost use Rattle.tp_store.specs.FactMap.{is_among, facts_asked};
ghost use Rattle.tp_store.specs.Nodes.{facts_in_tree, IsTree};

use crate::nodes::Nodes;
use std::alloc::Global;
use tp_value::{Fact, NoMemory};

/// Which variables' facts are asked for: of those below a number, or of that with one.
#[derive(Clone, Copy, Debug, PartialEq, Eq)]
pub enum AskedVariables {
    Below(u64),
    Of(u64),
}

impl AskedVariables {
    /// Whether the facts of the variable with that number are asked for.
    pub fn has(self, number: u64) -> bool
        ensures { result ≡ is_among self number }
    {
        match self {
            AskedVariables::Below(end) => number < end,
            AskedVariables::Of(one) => number == one,
        }
    }
}

/// Appends those of the facts that are asked for, in the order of the nodes, as facts of variables of this kind.
pub fn copy_facts(
    alloc: Global,
    lasting: bool,
    nodes: &Nodes,
    which: AskedVariables,
    facts: &mut Vec<Fact>,
) -> Result<(), NoMemory>
    requires { IsTree nodes.now }
    ensures { OnOk result (facts.new.items
        ≡ facts.old.items ++ facts_asked which (facts_in_tree lasting nodes.now)) }
{
    for number in 0..nodes.count() {
        let number = number as u64 + 1;
        if let Some(shape) = nodes.shape(number) {
            if which.has(nodes.owner(number)) {
                let path = nodes.path(alloc, lasting, number)?;
                facts.push(Fact { path, shape })?;
            }
        }
    }
    Ok(())
}
