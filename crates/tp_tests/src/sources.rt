// The program that a text is.
ghost use Rattle.std.specs.Prelude.{IfOk};
ghost use Rattle.tp_meaning.specs.Fits.{ProgramFits};
ghost use Rattle.tp_check.specs.Read.{program_tree};

use std::alloc::Global;
use std::test::Fail;
use tp_check::{Program, check};
use tp_lex::{LexRefusal, Tokens, tokens};
use tp_parse::parse;

fn tokens_of(alloc: Global, text: &[u8]) -> Result<Tokens, LexRefusal> {
    if text.len() > 1_048_576 {
        return Err(LexRefusal::NoMemory);
    }
    tokens(alloc, text)
}

pub fn program_of(alloc: Global, text: &str) -> Result<Program, Fail>
    ensures fits { IfOk result (λ p. ProgramFits (program_tree p)) }
{
    let tokens = tokens_of(alloc, text.as_bytes())?;
    let source = parse(alloc, &tokens)?;
    let program = check(alloc, &source)?;
    Ok(program)
}
