// Setting values that are handed in.
ghost use Rattle.std.specs.Prelude.{◌≡◌, [], true, IfOk, IfErr, OnErr, IsTrue};
ghost use Rattle.tp_value.specs.Limits.{is_within_list_limit};
ghost use Rattle.tp_value.specs.Read.{tree};
ghost use Rattle.tp_store.specs.Facts.{facts_at};
ghost use Rattle.tp_store.specs.Known.{addition, adds, IsVariableOf};
ghost use Rattle.tp_store.specs.Stock.{contents_in};
ghost use Rattle.tp_store.specs.Answers.{IsRefusal};
ghost use Rattle.tp_store.specs.Changes.{IsSoundStore, AddsFacts};
ghost use Rattle.tp_store.specs.Wholes.{facts_of_value, AreOfOthers};
ghost use Rattle.tp_store.specs.Operand.{operand_tree};

use crate::add::AddRefusal;
use crate::learned::Learned;
use crate::operand::{Operand, held, owned, seen};
use crate::store::Store;
use std::rc::Rc;
use tp_value::{NoMemory, Path, Value, VarId, is_within_list_limit};

// Whether the value is a list that is within the limit.
fn is_readable_list(value: &Value) -> bool
    ensures { IsTrue result → is_within_list_limit (tree value.now) ≡ true }
{
    match value {
        Value::List(_) => is_within_list_limit(value),
        Value::Num(_) | Value::Truth(_) => false,
    }
}

impl Store {
    /// The same as `add`, of a path and a value that are handed in. Of a list that is set to a variable of which nothing is known no fact is
    /// written down: it stands there as a whole, for all that hold it.
    pub fn set(&mut self, path: Path, value: Operand) -> Result<Learned, AddRefusal>
        requires { IsVariableOf self.old.variables path.var }
        ensures news { IfOk result (λ news.
            addition self.old.facts (facts_at path (operand_tree value)) ≡ adds news) }
        ensures refused { IfErr result
            (IsRefusal (addition self.old.facts (facts_at path (operand_tree value)))) }
        ensures added { IfOk result (λ news.
            AddsFacts (contents_in self.old) news (contents_in self.new)) }
        ensures err { OnErr result (contents_in self.new ≡ contents_in self.old) }
        ensures sound { IsSoundStore (contents_in self.new) }
    {
        if path.at.items.as_slice().is_empty()
            && self.is_free(path.var)
            && is_readable_list(seen(&value))
        {
            let value = held(self.alloc, value)?;
            let learned = self.give(path.var, value)?;
            return Ok(learned);
        }
        let value = owned(self.alloc, value)?;
        let facts = self.add_value(path, value)?;
        Ok(Learned::listed(facts))
    }

    // Whether nothing is known of the variable.
    fn is_free(&self, var: VarId) -> bool
        ensures { IsTrue result → AreOfOthers var.number self.now.facts }
    {
        self.state.is_free(var) && self.fixed.is_free(var)
    }

    // Gives this value to a variable of which nothing is known.
    fn give(&mut self, var: VarId, value: Rc<Value>) -> Result<Learned, NoMemory>
        requires variable { IsVariableOf self.old.variables var }
        requires free { AreOfOthers var.number self.old.facts }
        requires limit { is_within_list_limit (tree value.value) ≡ true }
        ensures news { IfOk result (λ news.
            addition self.old.facts (facts_of_value var (tree value.value)) ≡ adds news) }
        ensures added { IfOk result (λ news.
            AddsFacts (contents_in self.old) news (contents_in self.new)) }
        ensures err { OnErr result (contents_in self.new ≡ contents_in self.old) }
        ensures sound { IsSoundStore (contents_in self.new) }
    {
        let _ = &self.alloc;
        let kept = value.clone()?;
        if var.lasting {
            self.fixed.give(var, kept)?;
            return Ok(Learned::whole(var, value));
        }
        self.state.give(var, kept)?;
        Ok(Learned::whole(var, value))
    }
}
