// The line that is printed where there is no chart.
ghost use Rattle.std.specs.Prelude.{◌≡◌, IfOk, string_bytes};
ghost use Rattle.reports.specs.Texts.{refusal_line};

use charts::Refusal;
use std::alloc::{AllocError, Global};

// Why there is no chart, and where.
pub fn refusal_line(alloc: Global, refusal: Refusal) -> Result<String, AllocError>
    ensures { IfOk result (λ s. string_bytes s ≡ refusal_line refusal) }
{
    format!(in alloc; "refused {refusal}\n")
}
