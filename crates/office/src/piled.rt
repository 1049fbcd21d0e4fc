ghost use Rattle.lending.specs.Layers.{Follow};

use crate::office::Office;

/// An office whose objections are those of its layers and no others, at every moment: so what a list of calls leads to
/// can be worked out.
pub trait Piled: Office {
    /// Its objections follow from its layers, the roll and today.
    ghost follow: { (o : Self) → Follow (Self.layers o) (Self.meaning o) };
}
