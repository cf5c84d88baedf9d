ghost use Rattle.std.specs.Prelude.{◌≡◌};
ghost use Rattle.tp_verdict.specs.Verdict.{both_of, one_of, opposite_of};
ghost use Rattle.tp_verdict.specs.Code.{verdict_of};

/// Something holds, or it doesn't, or what is known decides neither.
#[derive(Clone, Copy, Debug, PartialEq, Eq)]
pub enum Verdict {
    Yes,
    No,
    Open,
}

/// Both of two.
pub fn both(a: Verdict, b: Verdict) -> Verdict
    ensures { verdict_of result ≡ both_of (verdict_of a) (verdict_of b) }
{
    match (a, b) {
        (Verdict::No, _) | (_, Verdict::No) => Verdict::No,
        (Verdict::Yes, Verdict::Yes) => Verdict::Yes,
        (Verdict::Open, Verdict::Yes | Verdict::Open) | (Verdict::Yes, Verdict::Open) =>
            Verdict::Open,
    }
}

/// One of two.
pub fn either(a: Verdict, b: Verdict) -> Verdict
    ensures { verdict_of result ≡ one_of (verdict_of a) (verdict_of b) }
{
    opposite(both(opposite(a), opposite(b)))
}

/// The opposite.
pub fn opposite(a: Verdict) -> Verdict
    ensures { verdict_of result ≡ opposite_of (verdict_of a) }
{
    match a {
        Verdict::Yes => Verdict::No,
        Verdict::No => Verdict::Yes,
        Verdict::Open => Verdict::Open,
    }
}
