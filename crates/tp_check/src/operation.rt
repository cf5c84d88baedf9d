// What the operators make of two expressions.
ghost use Rattle.std.specs.Prelude.{◌≡◌, IfOk};
ghost use Rattle.std.specs.Option.{option_map};
ghost use Rattle.tp_kernel.specs.Read.{expr_tree};
ghost use Rattle.tp_check.specs.Positions.{operation_of};
ghost use Rattle.tp_check.specs.Building.{made_by};

use std::rc::Rc;
use tp_kernel::{Expr, Op2};
use tp_tree::Op;

/// An operation on two values. `Either` looks at the second only where the first is false.
#[derive(Clone, Copy)]
pub enum Operation {
    Either,
    With(Op2),
}

/// The operation that an operator stands for. `;`, `proj`, `gets`, `<-` and `:=` stand for none.
pub fn operation_for(op: Op) -> Option<Operation>
    ensures { option_map made_by result ≡ operation_of op }
{
    let with = match op {
        Op::Or => return Some(Operation::Either),
        Op::Equal => Op2::Equal,
        Op::Differs => Op2::Differs,
        Op::Less => Op2::Less,
        Op::LessEqual => Op2::LessEqual,
        Op::Greater => Op2::Greater,
        Op::GreaterEqual => Op2::GreaterEqual,
        Op::Plus => Op2::Plus,
        Op::Minus => Op2::Minus,
        Op::Times => Op2::Times,
        Op::Div => Op2::Div,
        Op::Mod => Op2::Mod,
        Op::Chop | Op::Proj | Op::Gets | Op::Arrow | Op::Becomes => return None,
    };
    Some(Operation::With(with))
}

impl Operation {
    /// The expression that the operation makes of two.
    pub fn make(self, left: Rc<Expr>, right: Rc<Expr>) -> Expr
        ensures { expr_tree result ≡ made_by self (expr_tree left.value) (expr_tree right.value) }
    {
        match self {
            Operation::Either => Expr::Either(left, right),
            Operation::With(op) => Expr::Op(op, left, right),
        }
    }
}
