//! Piles: a fixed list under some cuts.
ghost use Rattle.std.specs.Prelude.{◌≡◌, ◌≤◌, IfOk, Ok, Err};
ghost use Rattle.pile.specs.Layers.{layered};
ghost use Rattle.pile.specs.Piles.{pile_of, Grown};

use crate::{Layer, PileRefused};
use numlist::{Cut, Fixed, NumberList};

/// The most cuts of a pile.
pub const MOST_CUTS: usize = 4;

/// A fixed list under up to four cuts.
pub type Pile = Layer<Layer<Layer<Layer<Fixed>>>>;

/// The pile of a fixed list of so many bits and cuts of these widths over it, the lowest one first. Made where it is asked for:
/// by a call that hands it on in memory, opening a short list takes up to twice the time.
#[inline(always)]
pub fn new_pile(bits: u32, cuts: &[u32]) -> Result<Pile, PileRefused>
    ensures reach { IfOk result (λ pile. (⟦<Pile as NumberList>⟧.meaning pile).reach ≤ 64) }
    ensures pile { elim result [ Ok pile ↦ pile_of bits cuts.now ≡ Ok (⟦<Pile as NumberList>⟧.meaning pile) | Err refusal ↦ pile_of bits cuts.now ≡ Err refusal ] }
{
    let fixed = Fixed::new(bits)?;
    let one = layer(fixed, cuts, 0)?;
    let two = layer(one, cuts, 1)?;
    let three = layer(two, cuts, 2)?;
    let four = layer(three, cuts, 3)?;
    if cuts.len() > MOST_CUTS {
        return Err(PileRefused::TooMany);
    }
    Ok(four)
}

// The list under cut `i`, if there is one.
#[inline(always)]
fn layer<L: NumberList + Copy>(list: L, cuts: &[u32], i: usize) -> Result<Layer<L>, PileRefused>
    ensures { Grown cuts.now i (L.NumberList.meaning list) (layered L.NumberList.meaning) result }
{
    match cuts.get(i) {
        Some(bits) => Ok(Layer::Over(Cut::new(*bits, list)?)),
        None => Ok(Layer::Bare(list)),
    }
}
