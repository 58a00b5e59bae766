// For each router and FEC: whether the router owns the FEC, and the line of its next hop.
ghost use Rattle.tables.specs.Rows.{AllBelow};

use grid::Grid;

#[derive(Drop)]
pub struct Routes {
    pub(crate) owner: Grid<bool, 16, 0, 32, 512>,
    pub(crate) next: Grid<Option<usize>, 16, 0, 32, 512>,
    // how many lines there are to choose from
    pub(crate) lines: usize,
    ghost real: { AllBelow lines next.cells },
}
