// The modes by their names, and the files that they read.
ghost use Rattle.std.specs.Prelude.{◌≡◌, option_map};
ghost use Rattle.tp_words.specs.declared.mode.Mode.TheVariants.{Drill};
ghost use Rattle.tp_words.specs.Options.{size_spelled, mode_named, needs_other, has_other};

use crate::mode::Mode;
use crate::size::size_spelled;

// The drill whose size the text spells.
fn drill_of(subject: &str) -> Option<Mode>
    ensures { result ≡ option_map Drill (size_spelled subject.now) }
{
    match size_spelled(subject) {
        Some(size) => Some(Mode::Drill { size }),
        None => None,
    }
}

/// The mode with this name, where the word after it is the name of a file, or for a drill a size.
pub fn mode_named(name: &str, subject: &str) -> Option<Mode>
    ensures { result ≡ mode_named name.now subject.now }
{
    if name == "run" {
        return Some(Mode::Run);
    }
    if name == "print" {
        return Some(Mode::Print);
    }
    if name == "convert" {
        return Some(Mode::Convert);
    }
    if name == "check" {
        return Some(Mode::Check);
    }
    if name == "drill" {
        return drill_of(subject);
    }
    None
}

// Whether the mode reads a second file, which the words must name.
fn needs_other(mode: Mode) -> bool
    ensures { result ≡ needs_other mode }
{
    match mode {
        Mode::Run | Mode::Print | Mode::Convert => false,
        Mode::Check => true,
        Mode::Drill { .. } => false,
    }
}

/// Whether the second file is named, where the mode reads one.
pub fn has_other(mode: Mode, other: Option<&str>) -> bool
    ensures { result ≡ has_other mode (option_map (λ t. t.now) other.entry) }
{
    match other {
        Some(_) => true,
        None => !needs_other(mode),
    }
}
