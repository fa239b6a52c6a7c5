// Document 01's rows 12 and 13, run on the code; all 13 rows are computed from the definitions (test_oof_box_rows). What is written
// is held to the column "found".
use geometry::{Line, Point, Rect, Size};
use oof_common::scrollable_overflow;
use std::io;
use style::{Contain, Overflow};
use util::eighths;
use util::eighths::Count;

// ---- what is written

fn sign_of(negative: bool) -> &'static str {
    if negative { "-" } else { "" }
}

// A number of pixels, by its eighths: 29.500.
fn print_px(rt: &impl Print, x: f32) -> io::Result<()> {
    match eighths::to_eighths(x) {
        None => print!(rt; " *"),
        Some(Count { negative, size: n }) => {
            let sign = sign_of(negative);
            print!(rt; " {sign}{}.{:03}", n / 8, n % 8 * 125)
        }
    }
}

fn print_line(rt: &impl Print, line: Line<f32>) -> io::Result<()> {
    print_px(rt, line.start)?;
    print_px(rt, line.end)?;
    println!(rt)
}

fn print_rect(rt: &impl Print, row: u8, rect: Rect<f32>) -> io::Result<()> {
    print!(rt; "{row}")?;
    print_line(rt, rect.horizontal_components())
}

// ---- rows 12 and 13: the contribution

// Of a box that is visible in both axes and not contained.
fn contribution(x: f32, size: Size<f32>, right: f32, scrolls: bool) -> Rect<f32> {
    let location = Point { x, y: 0.0 };
    let own = Rect {
        left: 0.0,
        right,
        top: 0.0,
        bottom: 0.0,
    };
    scrollable_overflow::compute_scrollable_overflow_contribution(
        location,
        size,
        own,
        Point::default(),
        Contain::default(),
        scrolls,
    )
}

pub(crate) fn run(rt: &impl Print) -> io::Result<()> {
    let empty = Size {
        width: 0.0,
        height: 10.0,
    };
    let forty = Size {
        width: 40.0,
        height: 10.0,
    };
    print_rect(rt, 12, contribution(0.0, empty, 0.0, false))?;
    print_rect(rt, 12, contribution(0.0, empty, 5.0, false))?;
    print_rect(rt, 13, contribution(-40.0, forty, 0.0, true))?;
    print_rect(rt, 13, contribution(-39.0, forty, 0.0, true))
}
