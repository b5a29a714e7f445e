// "A plain form that fills five number lists comes first" (2026-10): type, x, y, angle and quality of each point.
#![tactic(auto)]

ghost use Rattle.std.specs.Prelude.{◌≡◌, ◌++◌, ◌+◌, ◌*◌, ◌-◌, ◌≤◌, length, take, set};
ghost use Rattle.laws.specs.Room.{zeros};
ghost use Rattle.points.specs.Calls.{five, lists_of, HoldsEach, FillsLists};
ghost use Rattle.points.specs.Places.{point_at, entry_of, along, Inside};
ghost use Rattle.columns.specs.Columns.{Row, lent, Same, put_at, put_all, zeros_behind, shortest};

use points::{Listed, Plan, Point, point_at};

// Zeros behind the first entries, up to the list's own end.
fn clear(out: &mut [u64], from: usize)
    requires { from ≤ length out.old }
    ensures { out.new ≡ take from out.old ++ zeros (length out.old - from) }
{
    out[from..].fill(0);
}

// The five lists that a caller lends.
#[derive(Drop)]
struct Columns<'a> {
    types: &'a mut [u64],
    xs: &'a mut [u64],
    ys: &'a mut [u64],
    angles: &'a mut [u64],
    qualities: &'a mut [u64],
}

impl Columns<'_> {
    // How many entries the shortest of them has.
    fn shortest(&self) -> usize
        ensures { result ≡ shortest (lent self.now) }
    {
        self.types
            .len()
            .min(self.xs.len())
            .min(self.ys.len())
            .min(self.angles.len())
            .min(self.qualities.len())
    }

    // A point as entry i of each list.
    fn put(&mut self, p: Point, i: usize)
        requires { HoldsEach (lent self.old) (i + 1) }
        ensures same_lists { Same self.old self.new }
        ensures after { lent self.new ≡ put_at p i (lent self.old) }
    {
        self.types[i] = p.sort;
        self.xs[i] = p.x;
        self.ys[i] = p.y;
        self.angles[i] = p.angle;
        self.qualities[i] = p.quality;
    }

    // Zeros behind the first entries of each list.
    fn clear(&mut self, from: usize)
        requires { HoldsEach (lent self.old) from }
        ensures same_lists { Same self.old self.new }
        ensures after { lent self.new ≡ zeros_behind from (lent self.old) }
    {
        clear(self.types, from);
        clear(self.xs, from);
        clear(self.ys, from);
        clear(self.angles, from);
        clear(self.qualities, from);
    }

    // The points of one view, which stand one after the other from `at` on, into each list, from the entry `from` on. Two a turn:
    // what the loop itself takes is a fifth of what a point takes.
    fn put_view(&mut self, c: &[u8], at: usize, count: usize, from: usize)
        requires { Row c.now at count × HoldsEach (lent self.old) (from + count) }
        ensures same_lists { Same self.old self.new }
        ensures after { lent self.new ≡ put_all (λ i. point_at c.now (at + 6 * i)) from count (lent self.old) }
    {
        for turn in 0..count / 2 {
            let i = 2 * turn;
            self.put(point_at(c, at + 6 * i), from + i);
            self.put(point_at(c, at + 6 * (i + 1)), from + (i + 1));
        }
        if count % 2 == 1 {
            let i = count - 1;
            self.put(point_at(c, at + 6 * i), from + i);
        }
    }

    // The points of the plan, in one pass, at the front of each list, and zeros behind the last.
    fn put_points(&mut self, c: &[u8], plan: Plan)
        requires { Inside plan (length c.now) × HoldsEach (lent self.old) (plan.first + plan.second) }
        ensures same_lists { Same self.old self.new }
        ensures after { lent self.new ≡ lists_of (along (entry_of c.now plan) 0 (plan.first + plan.second)) (lent self.old) }
    {
        let second_at = plan.at + 6 * plan.first + 6;
        self.put_view(c, plan.at, plan.first, 0);
        self.put_view(c, second_at, plan.second, plan.first);
        self.clear(plan.first + plan.second);
    }
}

// The plain form: five lists, each filled from its front and zero behind the last point. "Of five lists the shortest counts."
// Stays five slices: document 02 and the C interface name them; inside they are one value.
pub fn lists(
    today: u64,
    container: &[u8],
    types: &mut [u64],
    xs: &mut [u64],
    ys: &mut [u64],
    angles: &mut [u64],
    qualities: &mut [u64],
) -> Listed
    ensures { FillsLists today container.now (five types.old xs.old ys.old angles.old qualities.old) (five types.new xs.new ys.new angles.new qualities.new) result }
{
    let mut columns = Columns {
        types,
        xs,
        ys,
        angles,
        qualities,
    };
    let located = points::locate(today, container, columns.shortest());
    columns.put_points(container, located.unwrap_or_default());
    located.into()
}
