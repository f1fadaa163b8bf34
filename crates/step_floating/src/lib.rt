#![tactic(auto)]

// "A free node needs a path of conducting branches (R, L, C, closed SW) to ground, to a fixed node, or to a node with a line end, itself
// included." A line's end is a leg to ground, and an open switch conducts nothing; no leg leaves the area.
ghost use Rattle.std.specs.Prelude.{◌≤◌, ◌≡◌};
ghost use Rattle.whole.specs.Plain.{length};
ghost use Rattle.paper.specs.Limits as Limits;
ghost use Rattle.paper.specs.Floating as Paper;
ghost use Rattle.step_legs.specs.Wires.{leg_of, legs_in, Wired, Wires};
ghost use Rattle.step_legs.specs.Free.{Free};
ghost use Rattle.whole.specs.Named.{named};
ghost use Rattle.step_floating.specs.Search.{loose, reaches, meets, finds, Room};
ghost use Rattle.step_floating.specs.Visits.{started, past};

use paper::Node;
use step_legs::Wire;

// A byte holds a node's number: the marks by node, or the list of nodes still to visit.
type Nodes = [u8; Node::PLACES];

// The node that a leg reaches, if any: it conducts, and just one of its nodes is reached already.
fn reaches(l: Wire, marks: &Nodes) -> Option<u8>
    requires { Wired l }
    ensures { result ≡ named (reaches (leg_of l) marks.now) }
{
    if l.g == 0 {
        return None;
    }
    match (marks[l.near], marks[l.far]) {
        (0, 0) => None,
        (0, far) => Some(far),
        (near, 0) => Some(near),
        _ => None,
    }
}

// The visit of node n goes by the legs at n. The first, that of ground, 0, and of all nodes that count as reached from the start, goes by every leg.
fn meets(l: Wire, n: u8) -> bool
    ensures { result ≡ meets (leg_of l) n }
{
    n == 0 || l.near == n as usize || l.far == n as usize
}

// the node that the visit of node n reaches by a leg, if any
fn finds(l: Wire, n: u8, marks: &Nodes) -> Option<u8>
    requires { Wired l }
    ensures { result ≡ named (finds (leg_of l) n marks.now) }
{
    if meets(l, n) { reaches(l, marks) } else { None }
}

// The search as it stands. A free node's mark is its number until it is reached, and 0 then; ground, the fixed nodes and those of other areas count as
// reached. The first `listed` of the list are the nodes reached that are still to visit.
#[derive(Drop)]
struct Search {
    marks: Nodes,
    list: Nodes,
    listed: usize,
}

impl Search {
    fn start(free: &[usize]) -> Search
        requires { Free free.now }
        ensures { result ≡ started free.now }
    {
        let mut marks = [0u8; Node::PLACES];
        for &n in free {
            marks[n] = n as u8;
        }
        Search {
            marks,
            list: [0; Node::PLACES],
            listed: 0,
        }
    }

    // A leg in the visit of node n: the node that it reaches is marked, and listed behind the others.
    fn visit_leg(&mut self, l: Wire, n: u8)
        requires { Wired l × Room self.old.marks self.old.listed }
        ensures { self.new ≡ past (finds (leg_of l) n self.old.marks) self.old }
    {
        if let Some(found) = finds(l, n, &self.marks) {
            self.marks[found as usize] = 0;
            self.list[self.listed] = found;
            self.listed += 1;
        }
    }
}

// "The search stops at the lowest node without one": the lowest free node, if any, without a path of legs that conduct to a node that is not among the
// free ones. While the node in hand is not reached, the visit goes on to its next leg, or to a node of the list; with none left, it floats.
// No `for`: "nested search over nodes and branches; the outer loop breaks with the floating node as its value" (docs/PAPER.md).
pub fn floating(legs: &[Wire], free: &[usize]) -> Option<usize>
    requires { Wires legs.now × Free free.now }
    ensures { result ≡ named (Paper.floating (loose free.now) Limits.node_end free.now (legs_in legs.now)) }
{
    let mut search = Search::start(free);
    let mut visited = 0u8;
    let mut branches = legs;
    let mut nodes = free;
    let found = 'nodes: loop {
        let Some((&node, others)) = nodes.split_first() else {
            break 'nodes None;
        };
        'branches: while search.marks[node] != 0 {
            if let Some((l, more)) = branches.split_first() {
                search.visit_leg(*l, visited);
                branches = more;
                continue 'branches;
            }
            if search.listed == 0 {
                break 'nodes Some(node);
            }
            search.listed -= 1;
            visited = search.list[search.listed];
            branches = legs;
        }
        nodes = others;
    };
    found
}
