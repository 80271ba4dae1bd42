//! What a measure is.
ghost use Rattle.std.specs.Prelude.{◌≡◌, List};
ghost use Rattle.grid.specs.declared.cell.Cell.{Cell};
ghost use Rattle.measure.specs.Measures.{Figures, InAnyOrder, Joins, MeasureLaws, figure};

use grid::Cell;

/// A way to sum up hits: each list of hits has a figure, which is joined from those of its parts.
pub trait Measure {
    /// What is told of a list of hits.
    type Figure: Copy;

    /// Which values are figures, and what none, one and join are.
    ghost figures: { Self → Figures Self.Figure };

    /// What the figure of a list of hits tells, in the measure's own words.
    ghost tells: { Self → List Cell → Self.Figure → Type 0 };

    /// The figure of no hit.
    fn none(&self) -> Self::Figure
        ensures { result ≡ (figures self.now).none };

    /// The figure of one hit.
    fn one(&self, cell: Cell) -> Self::Figure
        ensures { result ≡ (figures self.now).one cell };

    /// The figure of the hits of both figures together.
    fn join(&self, a: Self::Figure, b: Self::Figure) -> Self::Figure
        ensures { result ≡ (figures self.now).join a b };

    /// Figures are joined in any order and any bracketing, and none adds nothing.
    ghost sound: { (s : Self) → MeasureLaws (figures s) };

    /// The one figure of a list of hits tells what it is to tell.
    ghost told: { (s : Self) (hits : List Cell) → tells s hits (figure (figures s) hits) };

    /// The figure of the hits: the same in whatever order they stand and whatever parts it is joined from.
    final fn of(&self, hits: &[Cell]) -> Self::Figure
        ensures tells { tells self.now hits.now result }
        ensures value { result ≡ figure (figures self.now) hits.now }
        ensures joined { Joins (figures self.now) hits.now result }
        ensures law { InAnyOrder (figures self.now) hits.now result }
    {
        hits.iter().fold(
            self.none(),
            |gathered, hit| self.join(gathered, self.one(*hit)),
        )
    }
}
