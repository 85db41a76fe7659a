// The nodes of a line: first a not for each negative reference, then the line's own.
ghost use Rattle.std.specs.Prelude.{◌≡◌, true, ◌+◌, ◌≤◌, ◌<◌, length, get_or};
ghost use Rattle.spelling.specs.declared.forms.Rule.TheVariants.{Slice};
ghost use Rattle.spelling.specs.Nodes.{operator, constant_node, invert, variable_node, nots};
ghost use Rattle.spelling.specs.inner.Spelled.{rule_fits, or_nodes, sub_nodes, neq_nodes, uext_nodes, own_count, spelled_by, one_if, placed_at, three_of, nots_of, count_read, new_read, standing_for, fits_read};

use crate::constants::ones;
use crate::forms::{Form, Rule, row_of};
use crate::line::{Line, Operand, Operands};
use operators::kind;
use problem::Node;

// ---- what must fit

#[tactic(auto, unfolding(crate::specs::inner::Spelled::rule_fits))]
fn slice_fits(x: Line) -> bool
    ensures { result ≡ rule_fits Slice x.width x.ops.a.width 0 0 x.first x.second true }
{
    x.second <= x.first
        && x.first < x.ops.a.width
        && u16::from(x.first - x.second) + 1 == u16::from(x.width)
}

#[tactic(auto, unfolding(crate::specs::inner::Spelled::rule_fits))]
fn rule_fits(rule: Rule, x: Line) -> bool
    ensures { result ≡ rule_fits rule x.width x.ops.a.width x.ops.b.width x.ops.c.width x.first x.second x.literal.fits }
{
    let a = x.ops.a.width;
    let b = x.ops.b.width;
    match rule {
        Rule::Free => true,
        Rule::Sort => 1 <= x.first && x.first <= 64,
        Rule::Constant => x.literal.fits,
        Rule::One => a == x.width,
        Rule::Two => a == x.width && b == x.width,
        Rule::Compare => a == b && x.width == 1,
        Rule::If => a == 1 && b == x.width && x.ops.c.width == x.width,
        Rule::Concat => u16::from(a) + u16::from(b) == u16::from(x.width),
        Rule::Slice => slice_fits(x),
        Rule::Extend => u16::from(a) + u16::from(x.first) == u16::from(x.width),
        Rule::Bit => a == 1,
    }
}

#[tactic(auto, unfolding(crate::specs::inner::Spelled::fits_read))]
pub fn line_fits(x: Line) -> bool
    ensures { result ≡ fits_read x }
{
    rule_fits(row_of(x.word).rule, x)
}

// ---- nodes

fn operator_node(kind: u8, w: u8, a: u16, b: u16, c: u16) -> Node
    ensures { result ≡ operator kind w a b c }
{
    Node {
        kind,
        width: w,
        a,
        b,
        c,
        lo: 0,
        hi: 0,
    }
}

fn constant_node(w: u8, v: u64) -> Node
    ensures { result ≡ constant_node w v }
{
    Node {
        kind: kind::CONSTANT,
        width: w,
        a: 0,
        b: 0,
        c: 0,
        lo: v,
        hi: v,
    }
}

fn variable_node(w: u8) -> Node
    ensures { w ≤ 64 → result ≡ variable_node w }
{
    Node {
        kind: kind::VARIABLE,
        width: w,
        a: 0,
        b: 0,
        c: 0,
        lo: 0,
        hi: ones(w),
    }
}

fn not_of(w: u8, a: u16) -> Node
    ensures { result ≡ invert w a }
{
    operator_node(kind::NOT, w, a, 0, 0)
}

// or: not x, not y, and, not.
// (Numbers one by one, here and below, as the definitions of these nodes have them.)
#[tactic(auto, unfolding(crate::specs::inner::Spelled::or_nodes), using(crate::specs::laws::Spell::or_three))]
fn or_node(j: u16, w: u8, n: u16, x: u16, y: u16) -> Node
    requires { n ≤ 2000 }
    ensures { j < 4 → result ≡ get_or (or_nodes w n x y) j (invert 0 0) }
{
    match j {
        0 => not_of(w, x),
        1 => not_of(w, y),
        2 => operator_node(kind::AND, w, n, n + 1, 0),
        _ => not_of(w, n + 2),
    }
}

// sub: not a, add of that and b, not.
#[tactic(auto, unfolding(crate::specs::inner::Spelled::sub_nodes), using(crate::specs::laws::Spell::sub_two))]
fn sub_node(j: u16, w: u8, n: u16, a: u16, b: u16) -> Node
    requires { n ≤ 2000 }
    ensures { j < 3 → result ≡ get_or (sub_nodes w n a b) j (invert 0 0) }
{
    match j {
        0 => not_of(w, a),
        1 => operator_node(kind::ADD, w, n, b, 0),
        _ => not_of(w, n + 1),
    }
}

// neq: eq, not.
#[tactic(auto, unfolding(crate::specs::inner::Spelled::neq_nodes), using(crate::specs::laws::Spell::neq_one))]
fn neq_node(j: u16, w: u8, n: u16, a: u16, b: u16) -> Node
    ensures { j < 2 → result ≡ get_or (neq_nodes w n a b) j (invert 0 0) }
{
    match j {
        0 => operator_node(kind::EQ, w, a, b, 0),
        _ => not_of(w, n),
    }
}

// uext by p: 0 of p bits, concat of it and a.
#[tactic(auto, unfolding(crate::specs::inner::Spelled::uext_nodes), using(crate::specs::laws::Spell::uext_one))]
fn uext_node(j: u16, w: u8, n: u16, a: u16, p: u8) -> Node
    ensures { j < 2 → result ≡ get_or (uext_nodes w n a p) j (invert 0 0) }
{
    match j {
        0 => constant_node(p, 0),
        _ => operator_node(kind::CONCAT, w, n, a, 0),
    }
}

// Where a line's own nodes stand: the id of the first, and the nodes that are its operands.
#[derive(Clone, Copy, Debug, PartialEq, Eq)]
struct Placed {
    n: u16,
    a: u16,
    b: u16,
    c: u16,
}

// Node j of the line's own.
#[tactic(auto, unfolding(crate::specs::inner::Spelled::spelled_by, crate::specs::inner::Spelled::own_count, crate::specs::Nodes::unless_zero))]
fn own_node(form: Form, x: Line, at: Placed, j: u16) -> Node
    requires { at.n ≤ 2000 }
    ensures { x.width ≤ 64 → j < own_count form x.first → result ≡ get_or (spelled_by form x.width at.n at.a at.b at.c x.first x.second x.literal.value) j (invert 0 0) }
{
    let w = x.width;
    match form {
        Form::Nothing => not_of(0, 0),
        Form::Variable => variable_node(w),
        Form::Constant => constant_node(w, x.literal.value),
        Form::Plain(kind) => operator_node(kind, w, at.a, at.b, at.c),
        Form::Slice => operator_node(kind::EXTRACT, w, at.a, u16::from(x.second), 0),
        Form::Or => or_node(j, w, at.n, at.a, at.b),
        Form::Sub => sub_node(j, w, at.n, at.a, at.b),
        Form::Neq => neq_node(j, w, at.n, at.a, at.b),
        Form::Uext => uext_node(j, w, at.n, at.a, x.first),
        Form::Sext => operator_node(kind::SEXT, w, at.a, 0, 0),
    }
}

// How many they are.
#[tactic(auto, unfolding(crate::specs::inner::Spelled::own_count))]
fn own_count(form: Form, p: u8) -> u16
    ensures { result ≡ own_count form p }
{
    match form {
        Form::Nothing => 0,
        Form::Variable | Form::Constant | Form::Plain(_) | Form::Slice => 1,
        Form::Or => 4,
        Form::Sub => 3,
        Form::Neq => 2,
        Form::Uext => if p == 0 { 0 } else { 2 },
        Form::Sext => if p == 0 { 0 } else { 1 },
    }
}

// ---- the nots in front

#[tactic(auto, unfolding(crate::specs::inner::Spelled::one_if))]
fn one_if(b: bool) -> u16
    ensures { result ≡ one_if b }
{
    u16::from(b)
}

// The node that then is an operand, where n is the id of its not.
#[tactic(auto, unfolding(crate::specs::inner::Spelled::placed_at))]
fn placed_at(o: Operand, n: u16) -> u16
    ensures { result ≡ placed_at o n }
{
    if o.negative { n } else { o.node }
}

#[tactic(auto, unfolding(crate::specs::inner::Spelled::nots_of, crate::specs::inner::Spelled::one_if))]
fn nots_of(ops: Operands) -> u16
    ensures { result ≡ nots_of ops }
{
    one_if(ops.a.negative) + one_if(ops.b.negative) + one_if(ops.c.negative)
}

fn not_node(ops: Operands, j: u16) -> Node
    ensures { j < nots_of ops → result ≡ get_or (nots (three_of ops)) j (invert 0 0) }
{
    let first = one_if(ops.a.negative);
    let second = first + one_if(ops.b.negative);
    if j < first {
        return not_of(ops.a.width, ops.a.node);
    }
    if j < second {
        return not_of(ops.b.width, ops.b.node);
    }
    not_of(ops.c.width, ops.c.node)
}

// ---- all nodes of a line

#[tactic(auto, unfolding(crate::specs::inner::Spelled::count_read), using(crate::specs::laws::Spell::nots_few, crate::specs::laws::Spell::own_few))]
pub fn new_count(x: Line) -> u16
    ensures { result ≡ count_read x }
{
    nots_of(x.ops) + own_count(row_of(x.word).form, x.first)
}

// Node j of a line, of which the first has the id n.
// (n in a clause of its own: who has a line spelled out has it as a count.)
pub fn new_node(x: Line, n: u16, j: u16) -> Node
    requires { n ≤ 1024 }
    ensures { x.width ≤ 64 → j < count_read x → result ≡ get_or (new_read x n) j (invert 0 0) }
{
    let ops = x.ops;
    let before = nots_of(ops);
    if j < before {
        return not_node(ops, j);
    }
    let second = n + one_if(ops.a.negative);
    let third = second + one_if(ops.b.negative);
    let at = Placed {
        n: n + before,
        a: placed_at(ops.a, n),
        b: placed_at(ops.b, second),
        c: placed_at(ops.c, third),
    };
    own_node(row_of(x.word).form, x, at, j - before)
}

// The node that a line's id stands for: its last, or its operand where it makes none.
#[tactic(auto, unfolding(crate::specs::inner::Spelled::standing_for))]
pub fn node_for(x: Line, n: u16, total: u16) -> u16
    requires { (n ≤ 1024) × (total ≤ 10) }
    ensures { result ≡ standing_for x n total }
{
    if total == 0 {
        placed_at(x.ops.a, n)
    } else {
        n + total - 1
    }
}
