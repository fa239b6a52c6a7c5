// The pixel edges of a box in four lent integers: left, right, top, bottom.
ghost use Rattle.std.specs.Prelude.{◌≡◌};
ghost use Rattle.pixels.specs.Told.{edges_in, edges_told};

use geometry::Rect;
use refusal::Refusal;

pub const EDGES: usize = 4;

// The order of the C interface.
fn edges_in(p: Rect<i32>) -> [i32; EDGES]
    ensures { result ≡ edges_in p }
{
    [p.left, p.right, p.top, p.bottom]
}

// The result of a call, as the C interface has it: a number. Unless it was refused, the edges are written.
#[tactic(auto, unfolding(crate::specs::Told::edges_told))]
pub fn tell(p: Result<Rect<i32>, Refusal>, edges: &mut [i32; EDGES]) -> u32
    ensures { record { result = result; edges = edges.new } ≡ edges_told p edges.old }
{
    match p {
        Ok(rect) => {
            *edges = edges_in(rect);
            0
        }
        Err(refusal) => u32::from(refusal),
    }
}
