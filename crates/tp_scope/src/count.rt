// Counting.
ghost use Rattle.std.specs.Prelude.{◌≡◌, ◌≤◌, ◌+◌, ◌^◌, IfOk, OnErr};

use tp_value::NoMemory;

/// The sum of two numbers; it is refused where 32 bits don't hold it.
pub fn sum_of(m: u32, n: u32) -> Result<u32, NoMemory>
    ensures ok { IfOk result (λ s. s ≡ m + n) }
    ensures err { OnErr result (2 ^ 32 ≤ m + n) }
{
    match m.checked_add(n) {
        Some(sum) => Ok(sum),
        None => Err(NoMemory),
    }
}

/// The same number; it is refused where 32 bits don't hold it.
pub fn as_number(n: usize) -> Result<u32, NoMemory>
    ensures ok { IfOk result (λ m. m ≡ n) }
    ensures err { OnErr result (2 ^ 32 ≤ n) }
{
    match u32::try_from(n) {
        Ok(m) => Ok(m),
        Err(_) => Err(NoMemory),
    }
}
