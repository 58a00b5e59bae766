// The edges of a grid of 3 rows with the columns 16 to 19, and of the numbers.
use crate::grid::Grid;
use crate::number::{FecNumber, Label, Line, Number, Router};

#[test]
fn cells_inside_and_outside(rt: HostRuntime) {
    let grid: Grid<u8, 3, 16, 20, 12> = Grid::filled(7);
    for (row, column, want) in [
        (0, 16, Some(7)),
        (0, 19, Some(7)),
        (2, 16, Some(7)),
        (2, 19, Some(7)),
        (0, 15, None),
        (0, 20, None),
        (3, 16, None),
        (1, 0, None),
    ] {
        assert_eq!(rt; grid.get(row, column), want);
    }
}

#[test]
fn one_cell_is_set(rt: HostRuntime) {
    let mut grid: Grid<u8, 3, 16, 20, 12> = Grid::filled(0);
    grid.set(Number::new(0).unwrap(), Number::new(19).unwrap(), 5);
    grid.set(Number::new(2).unwrap(), Number::new(16).unwrap(), 9);
    for (row, column, want) in [
        (0, 19, 5),
        (2, 16, 9),
        (0, 18, 0),
        (1, 16, 0),
        (1, 19, 0),
        (2, 19, 0),
    ] {
        assert_eq!(rt; grid.get(row, column), Some(want));
    }
}

#[test]
fn numbers_in_range(rt: HostRuntime) {
    for (number, router, fec, line, label) in [
        (0, true, true, true, false),
        (15, true, true, true, false),
        (16, false, true, true, true),
        (31, false, true, true, true),
        (32, false, false, true, true),
        (47, false, false, true, true),
        (48, false, false, false, true),
        (79, false, false, false, true),
        (80, false, false, false, false),
    ] {
        assert_eq!(rt; Router::new(number).is_some(), router);
        assert_eq!(rt; FecNumber::new(number).is_some(), fec);
        assert_eq!(rt; Line::new(number).is_some(), line);
        assert_eq!(rt; Label::new(number).is_some(), label);
    }
}

#[test]
fn the_smallest_label(rt: HostRuntime) {
    assert_eq!(rt; Label::smallest(|_| true), Label::new(16));
    assert_eq!(rt;
        Label::smallest(|label| label.number() >= 79),
        Label::new(79)
    );
    assert_eq!(rt; Label::smallest(|label| label.number() >= 80), None);
}
