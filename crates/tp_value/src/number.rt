// The numbers of the language.
ghost use Rattle.std.specs.Prelude.{◌≡◌, ◌≢◌, pos, ◌+ℤ◌, ◌-ℤ◌, ◌*ℤ◌, neg_ℤ};
ghost use Rattle.tp_value.specs.Number.{is_within_limit, within_limit, floor_div, floor_mod};

/// A number of the language, from `-NUMBER_LIMIT` to `NUMBER_LIMIT`.
pub type Number = i128;

/// The greatest number of the language; the least is its negation.
pub const NUMBER_LIMIT: Number = i128::MAX;

/// Whether the number is within the limit.
pub fn is_number(n: Number) -> bool
    ensures { result ≡ is_within_limit n }
{
    n >= -NUMBER_LIMIT
}

// The number, where it is within the limit.
fn within(n: Number) -> Option<Number>
    ensures { result ≡ within_limit n }
{
    if is_number(n) { Some(n) } else { None }
}

/// The sum, where it is within the limit.
pub fn sum(a: Number, b: Number) -> Option<Number>
    ensures { result ≡ within_limit (a +ℤ b) }
{
    match a.checked_add(b) {
        Some(n) => within(n),
        None => None,
    }
}

/// The difference, where it is within the limit.
pub fn difference(a: Number, b: Number) -> Option<Number>
    ensures { result ≡ within_limit (a -ℤ b) }
{
    match a.checked_sub(b) {
        Some(n) => within(n),
        None => None,
    }
}

/// The product, where it is within the limit.
pub fn product(a: Number, b: Number) -> Option<Number>
    ensures { result ≡ within_limit (a *ℤ b) }
{
    match a.checked_mul(b) {
        Some(n) => within(n),
        None => None,
    }
}

/// The number with the other sign, where it is within the limit.
pub fn negated(n: Number) -> Option<Number>
    ensures { result ≡ within_limit (neg_ℤ n) }
{
    match n.checked_neg() {
        Some(m) => within(m),
        None => None,
    }
}

/// The quotient rounded down, where it is within the limit. The divisor is not 0.
pub fn quotient(a: Number, b: Number) -> Option<Number>
    requires { b ≢ pos 0 }
    ensures { result ≡ within_limit (floor_div a b) }
{
    // Of all quotients only that of the least `i128` by -1 is none.
    if b == -1 {
        return negated(a);
    }
    let quotient = a.div_euclid(b);
    if 0 < b {
        return within(quotient);
    }
    // Its remainder is never below 0, so for a divisor below 0 it is the quotient rounded up.
    if a.rem_euclid(b) == 0 {
        within(quotient)
    } else {
        difference(quotient, 1)
    }
}

/// What the quotient leaves of the dividend, where it is within the limit: it has the sign of the divisor, or is 0. The divisor is
/// not 0.
pub fn remainder(a: Number, b: Number) -> Option<Number>
    requires { b ≢ pos 0 }
    ensures { result ≡ within_limit (floor_mod a b) }
{
    if b == -1 {
        return Some(0);
    }
    let rest = a.rem_euclid(b);
    if 0 < b {
        return within(rest);
    }
    if rest == 0 { Some(0) } else { sum(rest, b) }
}
