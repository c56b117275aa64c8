// The PLLs that are on.
ghost use Rattle.std.specs.Prelude.{◌≡◌, ◌++◌, IfOk, OnOk};
ghost use Rattle.std.specs.List.{list_any};
ghost use Rattle.fabric_model.specs.Tiles.{item_if};
ghost use Rattle.floor_plan.specs.Plans.{is_a, is_b, is_b_of, plls_of};

use fabric_model::{PllOutput, PllSource};
use plan_marks::PllMark;
use std::alloc::{AllocError, Global};

/// Whether an output of a PLL is `a`.
fn is_a(output: PllOutput) -> bool
    ensures { result ≡ is_a output }
{
    matches!(output, PllOutput::A)
}

/// Whether it is `b`.
pub(crate) fn is_b(output: PllOutput) -> bool
    ensures { result ≡ is_b output }
{
    matches!(output, PllOutput::B)
}

/// Whether the PLL at (x, y) has the output `b` among these.
fn has_b(sources: &[PllSource], x: u32, y: u32) -> bool
    ensures { result ≡ list_any (is_b_of x y) sources.now }
{
    sources.iter().any(|source| is_b(source.output) && source.x == x && source.y == y)
}

/// The PLLs of these outputs: each has the output `a`.
#[tactic(auto, unfolding(crate::specs::Plans::plls_of))]
pub(crate) fn plls_of(alloc: Global, sources: &[PllSource]) -> Result<Vec<PllMark>, AllocError>
    ensures { IfOk result (λ plls. plls.items ≡ plls_of sources.now) }
{
    let mut plls = Vec::new(alloc);
    for source in sources {
        push_if_a(&mut plls, *source, has_b(sources, source.x, source.y))?;
    }
    Ok(plls)
}

/// Appends the PLL of an output, if the output is `a`.
fn push_if_a(plls: &mut Vec<PllMark>, source: PllSource, has_b: bool) -> Result<(), AllocError>
    ensures { OnOk result (plls.new.items ≡ plls.old.items ++ item_if (is_a source.output) (record { x = source.x; y = source.y; has_b = has_b })) }
{
    if is_a(source.output) {
        plls.push(PllMark {
            x: source.x,
            y: source.y,
            has_b,
        })?;
    }
    Ok(())
}
