// Names that are hidden by `exists` one in another.
ghost use Rattle.std.specs.Prelude.{◌≡◌, ◌++◌, ◌∷◌, [], codes, IfOk, OnOk};
ghost use Rattle.tp_kernel.specs.Read.{formula_tree};
ghost use Rattle.tp_residual.specs.Chain.{naming_all, within_spelling, IsNoDeeper};
ghost use Rattle.tp_residual.specs.Phrases.{Vocabulary};

use tp_kernel::Formula;
use tp_value::{NoMemory, Text, Texts};

/// Appends `exists` with a name, which becomes the last of the names.
pub fn append_hidden(out: &mut Text, name: &Text, names: &mut Texts) -> Result<(), NoMemory>
    ensures text { OnOk result (out.new ≡ out.old ++ (codes "exists " ++ name.now ++ codes " : ")) }
    ensures names { OnOk result (names.new ≡ names.old ++ name.now ∷ []) }
{
    out.append(b"exists ")?;
    out.append(name.as_slice())?;
    out.append(b" : ")?;
    let name = name.copy()?;
    names.items.push(name)?;
    Ok(())
}

/// Appends what a formula hides by `exists` before anything else, adds these names, and gives what they are hidden in.
pub fn append_chain<'a>(
    out: &mut Text,
    formula: &'a Formula,
    names: &mut Texts,
) -> Result<&'a Formula, NoMemory>
    ensures text { IfOk result (λ inner. (v : Vocabulary)
        → out.new ++ within_spelling (naming_all v names.new) (formula_tree inner.now)
        ≡ out.old ++ within_spelling (naming_all v names.old) (formula_tree formula.now)) }
    ensures inside { IfOk result (λ inner. IsNoDeeper inner.now formula.now) }
{
    let mut inner = formula;
    'chain: while let Formula::Exists { name, body, .. } = inner {
        append_hidden(out, name, names)?;
        inner = body;
    }
    Ok(inner)
}
