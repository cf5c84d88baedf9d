// Reading and printing a source that isn't run.
ghost use Rattle.std.specs.Prelude.{◌≡◌, ◌≤◌, Err, length, IfOk, IfErr};
ghost use Rattle.tp_lex.specs.Place.{source_limit};
ghost use Rattle.tp_io.specs.Held.{Rose, bytes_of};
ghost use Rattle.tp_tree.specs.Read.{source_tree};
ghost use Rattle.tp_tree.specs.Spelling.{source_spelling};
ghost use Rattle.tp_words.specs.declared.mode.Mode.TheVariants.{Print};
ghost use Rattle.tp_call.specs.declared.status.Which.{Which};
ghost use Rattle.tp_call.specs.Answer.{WhereTold, HoldsSource};
ghost use Rattle.tp_call.specs.Parts.{IsReadRefusal, IsSourceRefusal, ClosesText};
ghost use Rattle.tp_call.specs.Reading.{AsksFile};
ghost use Rattle.tp_call.specs.Source.{IsSourceText, IsReadFromSpelling};

use crate::close::close;
use crate::refused::{by_lexer, by_parser, refusal_status};
use crate::source::{SOURCE_LIMIT, read_limited, read_status};
use crate::status::{Status, Which};
use std::alloc::Global;
use tp_io::{Files, Sink};
use tp_lex::tokens;
use tp_parse::parse;
use tp_tree::{Source, print};
use tp_value::Text;

/// The source of the grammar that a text is.
pub fn parse_source(alloc: Global, source: &[u8]) -> Result<Source, Status>
    requires { length source.now ≤ source_limit }
    ensures text { IfOk result (λ s. IsSourceText source.now (source_tree s)) }
    ensures refused { IfErr result (IsReadRefusal Print source.now) }
{
    let tokens = match tokens(alloc, source) {
        Ok(tokens) => tokens,
        Err(refusal) => return Err(refusal_status(by_lexer(source, refusal))),
    };
    match parse(alloc, &tokens) {
        Ok(tree) => Ok(tree),
        Err(refusal) => Err(refusal_status(by_parser(source, &tokens, refusal))),
    }
}

/// Reads a file that is a source of the grammar.
pub fn read_tree<F: Files>(alloc: Global, name: &str, files: &mut F) -> Result<Source, Status>
    ensures text { IfOk result (λ s. WhereTold (F.held files.old) (λ held.
        HoldsSource (source_tree s) (bytes_of held name.now))) }
    ensures read_back { IfOk result (λ s. IsReadFromSpelling (source_tree s)) }
    ensures refused { IfErr result (IsSourceRefusal Print (F.held files.old) name.now) }
    ensures asked { AsksFile (F.asked files.old) Which.Source name.now result (F.asked files.new) }
    ensures held { F.held files.new ≡ F.held files.old }
    ensures later { F.faults files.old ≤ F.faults files.new }
    ensures read_fault { (which : Which) → result ≡ Err (Status.ReadFault which)
        → (which ≡ Which.Source) × Rose F.greatest (F.faults files.old) (F.faults files.new) }
{
    match read_limited(alloc, files, name, SOURCE_LIMIT) {
        Ok(source) => parse_source(alloc, source.as_slice()),
        Err(refusal) => Err(read_status(refusal, Which::Source)),
    }
}

/// Writes the canonical spelling of the source, by one write.
pub fn print_source<K: Sink>(alloc: Global, source: &Source, out: &mut K) -> Status
    ensures written { ClosesText (source_spelling (source_tree source.now)) Status.Done
        (K.written out.old) (K.written out.new) result }
    ensures later { K.faults out.old ≤ K.faults out.new }
    ensures write_fault { result ≡ Status.WriteFault
        → Rose K.greatest (K.faults out.old) (K.faults out.new) }
{
    let mut text = Text::new(alloc);
    match print(source, &mut text) {
        Ok(()) => close(alloc, text.as_slice(), Status::Done, out),
        Err(_) => Status::NoMemory,
    }
}
