// What every layer tells, from the figures below.
ghost use Rattle.std.specs.Prelude.{◌≡◌, ◌≤◌};
ghost use Rattle.layers.specs.Layering.{layer_of};

use heads::Figures;

/// The figures of a layer with this modulus and bound; of None, where its own numbers are out of order.
pub(crate) fn layered(below: Figures, own: Option<(u32, u32)>) -> Figures
    requires { below.depth ≤ 256 }
    ensures { result ≡ layer_of own below }
{
    if !below.fit {
        return Figures::unfit(below.depth);
    }
    let depth = below.depth + 1;
    match own {
        Some((modulus, bound)) => Figures::told(depth <= 255, modulus, bound, depth),
        None => Figures::unfit(depth),
    }
}
