//! A cut that may be left out.
ghost use Rattle.std.specs.Prelude.{◌≡◌};
ghost use Rattle.pile.specs.Layers.{layered, Laid};
ghost use Rattle.pile.specs.LayerSound.{layer_sound};

use numlist::{Above, Count, Cut, CutLayout, ListFault, NumberList, Test};

/// A list, or a cut over it.
#[derive(Clone, Copy)]
pub enum Layer<L> {
    /// The list itself.
    Bare(L),
    /// A cut over the list.
    Over(Cut<L>),
}

/// Where the sections lie.
#[derive(Clone, Copy)]
pub enum LayerLayout<B> {
    Same(B),
    Parted(CutLayout<B>),
}

// Each method asks the list, or the cut over it: the language has no way to hand a trait on.
impl<L: NumberList> NumberList for Layer<L> {
    type Layout = LayerLayout<L::Layout>;

    ghost meaning = { layered L.NumberList.meaning };

    ghost laid = { Laid L.NumberList.laid };

    ghost sound = { λ s. layer_sound L.NumberList.meaning L.NumberList.sound s };

    fn reach(&self) -> u32 {
        match self {
            Layer::Bare(list) => list.reach(),
            Layer::Over(cut) => cut.reach(),
        }
    }

    fn is_past_64(&self) -> bool {
        match self {
            Layer::Bare(list) => list.is_past_64(),
            Layer::Over(cut) => cut.is_past_64(),
        }
    }

    fn size(&self, numbers: &Above<'_>) -> usize {
        match self {
            Layer::Bare(list) => list.size(numbers),
            Layer::Over(cut) => cut.size(numbers),
        }
    }

    fn put(&self, numbers: &Above<'_>, out: &mut [u8]) {
        match self {
            Layer::Bare(list) => list.put(numbers, out),
            Layer::Over(cut) => cut.put(numbers, out),
        }
    }

    fn judge(&self, bytes: &[u8], count: Count) -> Result<usize, ListFault> {
        match self {
            Layer::Bare(list) => list.judge(bytes, count),
            Layer::Over(cut) => cut.judge(bytes, count),
        }
    }

    fn has_no_zero(&self, bytes: &[u8], count: Count) -> bool {
        match self {
            Layer::Bare(list) => list.has_no_zero(bytes, count),
            Layer::Over(cut) => cut.has_no_zero(bytes, count),
        }
    }

    fn layout(&self, bytes: &[u8], count: Count) -> Result<LayerLayout<L::Layout>, ListFault> {
        match self {
            Layer::Bare(list) => list.layout(bytes, count).map(LayerLayout::Same),
            Layer::Over(cut) => cut.layout(bytes, count).map(LayerLayout::Parted),
        }
    }

    fn read_at(
        &self,
        layout: &LayerLayout<L::Layout>,
        bytes: &[u8],
        count: Count,
        i: usize,
    ) -> Result<u64, ListFault> {
        match (self, layout) {
            (Layer::Bare(list), LayerLayout::Same(places)) => list.read_at(places, bytes, count, i),
            (Layer::Over(cut), LayerLayout::Parted(places)) => cut.read_at(places, bytes, count, i),
            _ => Err(ListFault::here(Test::TooFew)),
        }
    }
}
