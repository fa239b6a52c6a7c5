// Numbers right-justified in columns, as the printed list and the screen file have them.
#![tactic(auto, unfolding(crate::specs::Column::count_ink, crate::specs::Column::code_ink))]

ghost use Rattle.std.specs.Prelude.{◌≡◌, ◌+◌, ◌≤◌, length};
ghost use Rattle.std.proofs.lemmas.List.Edits.{sets};
ghost use Rattle.boxlist_lines.specs.Column.{COLUMN, cell_of, left_of, cells, count_ink, code_ink, eighths_text, code_text};

use util::eighths;
use util::eighths::Count;

pub mod list;

// How wide a column of the printed list is.
pub const COLUMN: usize = 8;

// What is still to be written of a column, from its right end.
#[derive(Clone, Copy)]
pub enum Ink {
    Digits(Count),
    Sign,
    Star,
    Blank,
}

// The rightmost cell.
#[tactic(auto, unfolding(crate::specs::Column::cell_of))]
fn cell(ink: Ink) -> u8
    ensures { result ≡ cell_of ink }
{
    match ink {
        Ink::Digits(count) => b'0' + (count.size % 10) as u8,
        Ink::Sign => b'-',
        Ink::Star => b'*',
        Ink::Blank => b' ',
    }
}

// What stands left of it: the digits before, then the sign, then blanks.
#[tactic(auto, unfolding(crate::specs::Column::left_of))]
fn left_of(ink: Ink) -> Ink
    ensures { result ≡ left_of ink }
{
    match ink {
        Ink::Digits(count) if 10 <= count.size => Ink::Digits(Count {
            size: count.size / 10,
            ..count
        }),
        Ink::Digits(Count { negative: true, .. }) => Ink::Sign,
        _ => Ink::Blank,
    }
}

// Writes a column of a width, from its right end.
// By hand, with `cell`, `left_of`, `put_eighths` and `put_code`, since a `write!` of `{:>8}` promises its bytes only where it ends well, and no
// promise of std's says that it does. Why place and room stand beside the slice, here and below, is said at `list::put_bytes`.
// The place is counted, since of `iter_mut().rev()` nothing is promised of what the slice ends as.
#[tactic(auto, using(crate::proofs::Cells::cell_first, crate::proofs::Cells::no_cells))]
pub fn put(out: &mut [u8], at: usize, width: usize, ink: Ink)
    requires { at + width ≤ length out.old }
    ensures { out.new ≡ sets out.old at (cells width ink) }
{
    let mut rest = ink;
    for i in (0..width).rev() {
        out[at + i] = cell(rest);
        rest = left_of(rest);
    }
}

// A count of eighths: its number, or a star where a float is no whole count.
impl From<Option<Count>> for Ink {
    ghost from_gives = { λ count ink. ink ≡ count_ink count };

    fn from(count: Option<Count>) -> Ink {
        count.map_or(Ink::Star, Ink::Digits)
    }
}

// A code of the printed list: its number, or a star above 9,999,999.
impl From<u32> for Ink {
    ghost from_gives = { λ code ink. ink ≡ code_ink code };

    fn from(code: u32) -> Ink {
        let size = u64::from(code);
        if size <= eighths::LARGEST {
            Ink::Digits(Count {
                negative: false,
                size,
            })
        } else {
            Ink::Star
        }
    }
}

// The two below differ in one call: of any number that becomes an `Ink`, a contract could only say that there is some ink that it becomes.
// A float's eighths in a column of the list.
#[tactic(auto, unfolding(crate::specs::Column::eighths_text))]
pub fn put_eighths(out: &mut [u8], at: usize, x: f32)
    requires { at + COLUMN ≤ length out.old }
    ensures { out.new ≡ sets out.old at (eighths_text x) }
{
    put(out, at, COLUMN, Ink::from(eighths::to_eighths(x)));
}

// A code in a column of the list.
#[tactic(auto, unfolding(crate::specs::Column::code_text))]
pub fn put_code(out: &mut [u8], at: usize, code: u32)
    requires { at + COLUMN ≤ length out.old }
    ensures { out.new ≡ sets out.old at (code_text code) }
{
    put(out, at, COLUMN, Ink::from(code));
}
