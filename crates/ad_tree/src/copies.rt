ghost use Rattle.std.specs.Prelude.{◌≡◌, IfOk, Ok};

use ad_base::Memory;

// Both values, or want of memory where one is wanting.
pub(crate) fn both<A: Drop, B: Drop>(
    first: Result<A, Memory>,
    second: Result<B, Memory>,
) -> Result<(A, B), Memory>
    ensures { IfOk result (λ parts. (first ≡ Ok parts.0) × (second ≡ Ok parts.1)) }
{
    Ok((first?, second?))
}

// All three values, or want of memory where one is wanting.
pub(crate) fn all_three<A: Drop, B: Drop, C: Drop>(
    first: Result<A, Memory>,
    second: Result<B, Memory>,
    third: Result<C, Memory>,
) -> Result<(A, B, C), Memory>
    ensures { IfOk result (λ parts. (first ≡ Ok parts.0) × (second ≡ Ok parts.1) × (third ≡ Ok parts.2)) }
{
    let (first, second) = both(first, second)?;
    Ok((first, second, third?))
}
