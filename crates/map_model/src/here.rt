// Layers that stand where the layers, and those of the groups there, were last changed or gone to.
ghost use Rattle.std.specs.Prelude.{◌≡◌, IfSome};
ghost use Rattle.map_model.specs.Ways.{IsDrawnIn};

use crate::parts::Layer;
use link_chain::Chain;

/// The layer with an id, where it stands here, in layers that may have so many groups in one another.
pub fn find_here(layers: &Chain<Layer>, id: u32, groups: usize) -> Option<&Layer>
    ensures drawn { IfSome result (λ l. IsDrawnIn groups layers.now l.now) }
    ensures id { IfSome result (λ l. l.now.id ≡ id) }
{
    let (_, layer) = layers.here()?;
    if layer.id == id {
        return Some(layer);
    }
    if groups == 0 {
        return None;
    }
    find_here(layer.body.layers()?, id, groups - 1)
}

/// The layer that stands here and is no group with another one here, in layers that may have so many groups in one another.
pub fn innermost_here(layers: &Chain<Layer>, groups: usize) -> Option<&Layer>
    ensures { IfSome result (λ l. IsDrawnIn groups layers.now l.now) }
{
    let (_, layer) = layers.here()?;
    if groups == 0 {
        return Some(layer);
    }
    match layer.body.layers() {
        Some(inside) => innermost_here(inside, groups - 1),
        None => Some(layer),
    }
}
