// When two facts clash.
ghost use Rattle.std.specs.Prelude.{◌≡◌, length};
ghost use Rattle.tp_store.specs.Facts.{same_variable, same_indices, same_path, same_shape, has_item, leaves_out, excludes, clash, fact};
ghost use Rattle.tp_store.specs.Known.{is_lesser, is_earlier};
ghost use Rattle.tp_store.specs.FactMap.{lacks_item, has_no_item};
ghost use Rattle.tp_value.specs.declared.value.Shape.{Shape};

use tp_value::{Fact, Path, Shape, VarId};

fn same_variable(x: VarId, y: VarId) -> bool
    ensures { result ≡ same_variable x y }
{
    x == y
}

fn same_path(p: &Path, q: &Path) -> bool
    ensures { result ≡ same_path p.now q.now }
{
    p == q
}

/// Whether the shapes are equal.
pub fn same_shape(a: Shape, b: Shape) -> bool
    ensures { result ≡ same_shape a b }
{
    a == b
}

/// Whether the shape has an item with this index.
pub fn has_item(shape: Shape, index: u32) -> bool
    ensures { result ≡ has_item shape index }
{
    match shape {
        Shape::Items(n) => index < n,
        Shape::Num(_) | Shape::Truth(_) => false,
    }
}

/// Whether a shape is there, and has no item with this index.
pub fn lacks_item(shape: Option<Shape>, index: u32) -> bool
    ensures { result ≡ lacks_item shape index }
{
    match shape {
        Some(shape) => !has_item(shape, index),
        None => false,
    }
}

/// Whether an index is there for which the shape has no item.
pub fn lacks(shape: Shape, index: Option<u64>) -> bool
    ensures { result ≡ has_no_item shape index }
{
    match index {
        Some(index) => match shape {
            Shape::Items(n) => index >= u64::from(n),
            Shape::Num(_) | Shape::Truth(_) => true,
        },
        None => false,
    }
}

// A shape at these indices leaves no element at those beyond.
fn leaves_out(at: &[u32], shape: Shape, beyond: &[u32]) -> bool
    ensures { result ≡ leaves_out at.now shape beyond.now }
{
    if beyond.len() <= at.len() {
        return false;
    }
    for i in 0..at.len() {
        if at[i] != beyond[i] {
            return false;
        }
    }
    !has_item(shape, beyond[at.len()])
}

// A shape at this path leaves no element at the other.
fn excludes(path: &Path, shape: Shape, other: &Path) -> bool
    ensures { result ≡ excludes (fact path.now shape) other.now }
{
    same_variable(path.var, other.var)
        && leaves_out(path.at.items.as_slice(), shape, other.at.items.as_slice())
}

/// Whether a path with this shape clashes with the fact: they give one path two shapes, or one excludes the other's path.
pub fn clashes(path: &Path, shape: Shape, other: &Fact) -> bool
    ensures { result ≡ clash (fact path.now shape) other.now }
{
    (same_path(path, &other.path) && !same_shape(shape, other.shape))
        || (excludes(path, shape, &other.path) || excludes(&other.path, other.shape, path))
}

// Of indices of one length, the lesser ones.
fn is_lesser(a: &[u32], b: &[u32]) -> bool
    requires { length a.now ≡ length b.now }
    ensures { result ≡ is_lesser a.now b.now }
{
    for i in 0..a.len() {
        if a[i] != b[i] {
            return a[i] < b[i];
        }
    }
    false
}

/// Whether the path has fewer indices, or as many and lesser ones.
pub fn is_earlier(p: &Path, q: &Path) -> bool
    ensures { (a b : Shape) → result ≡ is_earlier (fact p.now a) (fact q.now b) }
{
    let a = p.at.items.as_slice();
    let b = q.at.items.as_slice();
    a.len() < b.len() || (a.len() == b.len() && is_lesser(a, b))
}
