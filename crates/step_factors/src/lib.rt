#![tactic(auto)]

// "Elimination" in two: a matrix changes only where a switch does, a right side at each step. `factor` eliminates the matrix alone and keeps each
// multiplier in the place that it was made from; `substitute` then solves for one right side. Each cell and each right side meets the stated
// operations in the stated order. All areas share one table: an area's n lines stand there from `base` on.
ghost use Rattle.std.specs.Prelude.{◌+◌, ◌<◌, ◌≤◌, ◌≡◌};
ghost use Rattle.paper.specs.Limits as Limits;
ghost use Rattle.paper.specs.Elimination.{line, quotient};
ghost use Rattle.step_factors.specs.Factored.{line_factored, all_factored, factored, left, forward, back};
ghost use Rattle.step_factors.specs.Factored.{substituted};

use paper::{Equation, Node};

// by place of a free node among them
pub type ByFree = [f64; Node::MAX as usize];

pub type Matrix = [ByFree; Node::MAX as usize];

// "f = a(q,p)/a(p,p); for each later column c, a(q,c) becomes a(q,c) - f·a(p,c)": own is line q and top is line p.
fn factor_line(own: &mut ByFree, top: &ByFree, n: usize, p: usize)
    requires { (n ≤ Limits.node_end) × (p < n) }
    ensures { own.new ≡ line_factored n p top.now own.old }
{
    let f = own[p] / top[p];
    for c in p + 1..n {
        own[c] -= f * top[c];
    }
    own[p] = f;
}

// Line p stays as it is, so it is read once.
fn factor_all(a: &mut Matrix, base: usize, n: usize, p: usize)
    requires { (base + n ≤ Limits.node_end) × (p < n) }
    ensures { a.new ≡ all_factored base n p a.old }
{
    let top = a[base + p];
    for q in p + 1..n {
        factor_line(&mut a[base + q], &top, n, p);
    }
}

// Table, base and n are no struct: `factor` is lent the table to write, `substitute` to read, so it would take two of them.
pub fn factor(a: &mut Matrix, base: usize, n: usize)
    requires { base + n ≤ Limits.node_end }
    ensures { a.new ≡ factored base n a.old }
{
    for p in 0..n {
        factor_all(a, base, n, p);
    }
}

// "t becomes t - a(p,c)·x(c)", c rising
fn left(line: &ByFree, x: &ByFree, from: usize, to: usize, right: f64) -> f64
    requires { to ≤ Limits.node_end }
    ensures { result ≡ left line.now x.now from to right }
{
    let mut t = right;
    for c in from..to {
        t -= line[c] * x[c];
    }
    t
}

// "b(q) becomes b(q) - f·b(p)" for each earlier row p, rising
fn forward(a: &Matrix, base: usize, b: &mut ByFree, n: usize)
    requires { base + n ≤ Limits.node_end }
    ensures { b.new ≡ forward base n a.now b.old }
{
    for q in 0..n {
        b[q] = left(&a[base + q], b, 0, q, b[q]);
    }
}

// "x(p) = t / a(p,p)": row p by its pivot and its right side, "passed by value beside the matrix array" (docs/PAPER.md)
fn solve_row(a: &Matrix, row: Equation, r: usize, x: &ByFree, n: usize, p: usize) -> f64
    requires { (r < Limits.node_end) × (n ≤ Limits.node_end) × (p < n) }
    ensures { result ≡ quotient (left (line a.now r) x.now (p + 1) n row.right) row.pivot }
{
    left(&a[r], x, p + 1, n, row.right) / row.pivot
}

// "Backwards from the last row"
fn back(a: &Matrix, base: usize, x: &mut ByFree, n: usize)
    requires { base + n ≤ Limits.node_end }
    ensures { x.new ≡ back base n a.now x.old }
{
    for p in (0..n).rev() {
        let r = base + p;
        let row = Equation {
            pivot: a[r][p],
            right: x[p],
        };
        x[p] = solve_row(a, row, r, x, n, p);
    }
}

// The right sides of n rows become the voltages of n free nodes, as doubles.
pub fn substitute(a: &Matrix, base: usize, b: &mut ByFree, n: usize)
    requires { base + n ≤ Limits.node_end }
    ensures { b.new ≡ substituted base n a.now b.old }
{
    forward(a, base, b, n);
    back(a, base, b, n);
}
