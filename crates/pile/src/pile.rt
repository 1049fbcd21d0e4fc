ghost use Rattle.pile.specs.House.{house_layers, PiledOn};

use chain::Chain;
use layer::Layer;
use office::Office;
use quota::Quota;
use term::Term;

/// Quota on Term on Chain over an office, with the number of each.
pub fn house_pile<O: Office>(
    below: O,
    quota: u16,
    term: u16,
    chain: u16,
) -> Layer<Layer<Layer<O, Chain>, Term>, Quota>
    ensures piled { PiledOn ⟦<Layer<Layer<Layer<O, Chain>, Term>, Quota> as Office>⟧ O.Office
        (house_layers quota term chain) result below }
{
    pile_up(below, quota, term, chain)
}

// The layers put on one by one. (A function of its own, since its proof is written by hand, and would be the first to
// refuse a wrong number.)
fn pile_up<O: Office>(
    below: O,
    quota: u16,
    term: u16,
    chain: u16,
) -> Layer<Layer<Layer<O, Chain>, Term>, Quota>
    ensures piled { PiledOn ⟦<Layer<Layer<Layer<O, Chain>, Term>, Quota> as Office>⟧ O.Office
        (house_layers quota term chain) result below }
{
    Quota::over(Term::over(Chain::over(below, chain), term), quota)
}
