//! Nets that depend on themselves. The search follows one path of nets, and draws each loop that it closes together
//! into one part of the path (H. N. Gabow, "Path-based depth-first search for strong and biconnected components",
//! Information Processing Letters 74, 2000).

ghost use Rattle.std.specs.Prelude.{◌≡◌, ◌≤◌, ◌<◌, ◌+◌, ◌||◌, ◌++◌, ℕ, [], ◌∷◌, true, false, length, map, slice_index_or, slice_set, IfOk, OnOk, MatchOption};
ghost use Rattle.gate_settle.specs.declared.reach.Visit.TheVariants.{OnPath};
ghost use Rattle.gate_settle.specs.Gates.{is_among};
ghost use Rattle.gate_settle.specs.Order.{DependsOn};
ghost use Rattle.gate_settle.specs.Reach.{AreWithin};
ghost use Rattle.gate_settle.specs.Search.{IsSearch, IsJoin, IsTold, is_new, is_on_loop, visit_at, piece_of, done_with, energy};

use crate::feeders::feeders;
use crate::gate::Gate;
use std::alloc::Global;
use text_scan::NoMemory;

/// How far the search has come with a net.
#[derive(Clone, Copy)]
enum Visit {
    New,
    /// On the path. So many nets were met before it.
    OnPath(usize),
    Done { on_loop: bool },
}

/// A part of the path: nets of which each depends on each other one.
#[derive(Drop)]
struct Part {
    /// How many nets were met before the first of these.
    first: usize,
    nets: Vec<usize>,
    /// What they depend on directly and hasn't been looked at.
    ahead: Vec<usize>,
    on_loop: bool,
}

/// How far the search has come with a net. What is no net depends on nothing.
fn visit_at(visits: &[Visit], net: usize) -> Visit
    ensures { result ≡ visit_at visits.now net }
{
    match visits.get(net) {
        Some(visit) => *visit,
        None => Visit::Done { on_loop: false },
    }
}

fn is_new(visits: &[Visit], net: usize) -> bool
    ensures { result ≡ is_new (visit_at visits.now net) }
{
    matches!(visit_at(visits, net), Visit::New)
}

/// Whether the search has found the net on a loop.
fn is_on_loop(visits: &[Visit], net: usize) -> bool
    ensures { result ≡ is_on_loop (visit_at visits.now net) }
{
    matches!(visit_at(visits, net), Visit::Done { on_loop: true })
}

/// A part of one net that is met.
fn alone(alloc: Global, rows: &[Vec<usize>], net: usize, first: usize) -> Result<Part, NoMemory>
    requires { net < length rows.now }
    ensures { IfOk result (λ p. piece_of p ≡ record { first = first; nets = net ∷ []; ahead = slice_index_or (map (λ v. v.items) rows.now) net []; on_loop = false }) }
{
    let mut nets = Vec::new(alloc);
    nets.push(net)?;
    Ok(Part {
        first,
        nets,
        ahead: Vec::from_slice(alloc, rows[net].as_slice())?,
        on_loop: false,
    })
}

/// The numbers of both. The fewer ones are moved, so that each is moved as often as its list doubles.
fn gathered(first: Vec<usize>, second: Vec<usize>) -> Result<Vec<usize>, NoMemory>
    ensures among { (k : ℕ) → IfOk result (λ all. is_among all.items k ≡ (is_among first.items k || is_among second.items k)) }
    ensures len { IfOk result (λ all. length all.items ≡ length first.items + length second.items) }
{
    let (mut more, mut fewer) = if first.len() < second.len() {
        (second, first)
    } else {
        (first, second)
    };
    more.append(&mut fewer)?;
    Ok(more)
}

/// Draws the last two parts together: the upper one depends on the net, which is in the lower one or below it.
fn joined(below: Part, top: Part, net: usize) -> Result<Part, NoMemory>
    ensures { IfOk result (λ p. IsJoin (piece_of below) (piece_of top) net (piece_of p)) }
{
    let nets = gathered(below.nets, top.nets)?;
    let mut ahead = gathered(below.ahead, top.ahead)?;
    ahead.push(net)?;
    Ok(Part {
        first: below.first,
        nets,
        ahead,
        on_loop: true,
    })
}

/// Tells of each of these nets whether it is on a loop.
fn tell(nets: &[usize], on_loop: bool, visits: &mut [Visit])
    ensures { visits.new ≡ done_with nets.now on_loop visits.old }
{
    for net in nets {
        if *net < visits.len() {
            visits[*net] = Visit::Done { on_loop };
        }
    }
}

/// Goes on to one net that the top of the path depends on, or takes the top off the path where there is none left. So
/// many nets were met, and are met then.
fn step(
    alloc: Global,
    rows: &[Vec<usize>],
    mut top: Part,
    parts: &mut Vec<Part>,
    visits: &mut [Visit],
    met: usize,
) -> Result<usize, NoMemory>
    requires { IsSearch (map (λ v. v.items) rows.now) visits.old met (map piece_of parts.old.items ++ piece_of top ∷ []) }
    ensures search { IfOk result (λ n. IsSearch (map (λ v. v.items) rows.now) visits.new n (map piece_of parts.new.items)) }
    ensures smaller { OnOk result (energy (map (λ v. v.items) rows.now) visits.new (map piece_of parts.new.items) < energy (map (λ v. v.items) rows.now) visits.old (map piece_of parts.old.items ++ piece_of top ∷ [])) }
    ensures kept { (k : ℕ) → is_new (visit_at visits.old k) ≡ false → OnOk result (is_new (visit_at visits.new k) ≡ false) }
{
    let Some(net) = top.ahead.pop() else {
        tell(top.nets.as_slice(), top.on_loop, visits);
        return Ok(met);
    };
    match visit_at(visits, net) {
        Visit::New => {
            parts.push(top)?;
            parts.push(alone(alloc, rows, net, met)?)?;
            visits[net] = Visit::OnPath(met);
            return Ok(met + 1);
        }
        Visit::Done { .. } => parts.push(top)?,
        Visit::OnPath(before) if top.first <= before => {
            top.on_loop = true;
            parts.push(top)?;
        }
        Visit::OnPath(_) => match parts.pop() {
            Some(below) => parts.push(joined(below, top, net)?)?,
            None => unreachable!(),
        },
    }
    Ok(met)
}

/// Follows all that the net depends on, if it is new. So many nets were met, and are met then.
fn follow(
    alloc: Global,
    rows: &[Vec<usize>],
    net: usize,
    visits: &mut [Visit],
    mut met: usize,
) -> Result<usize, NoMemory>
    requires { IsSearch (map (λ v. v.items) rows.now) visits.old met [] }
    ensures search { IfOk result (λ n. IsSearch (map (λ v. v.items) rows.now) visits.new n []) }
    ensures met { OnOk result (is_new (visit_at visits.new net) ≡ false) }
    ensures kept { (k : ℕ) → is_new (visit_at visits.old k) ≡ false → OnOk result (is_new (visit_at visits.new k) ≡ false) }
{
    if !is_new(visits, net) {
        return Ok(met);
    }
    let mut parts = Vec::new(alloc);
    parts.push(alone(alloc, rows, net, met)?)?;
    visits[net] = Visit::OnPath(met);
    met += 1;
    while let Some(top) = parts.pop() {
        met = step(alloc, rows, top, &mut parts, visits, met)?;
    }
    Ok(met)
}

/// Follows all that each net depends on.
fn follow_all(alloc: Global, rows: &[Vec<usize>]) -> Result<Vec<Visit>, NoMemory>
    ensures count { IfOk result (λ visits. length visits.items ≡ length rows.now) }
    ensures told { (k : ℕ) → k < length rows.now → IfOk result (λ visits. IsTold (map (λ v. v.items) rows.now) k (visit_at visits.items k)) }
{
    let mut visits = vec![in alloc; Visit::New; rows.len()]?;
    let mut met = 0;
    for net in 0..rows.len() {
        met = follow(alloc, rows, net, visits.as_mut_slice(), met)?;
    }
    Ok(visits)
}

/// The first net that depends on itself.
pub(crate) fn first_loop(
    alloc: Global,
    nets: usize,
    gates: &[Gate],
) -> Result<Option<usize>, NoMemory>
    requires { AreWithin gates.now nets }
    ensures { IfOk result (λ r. MatchOption r ((k : ℕ) → k < nets → DependsOn gates.now k k → ⊥) (λ n. (n < nets) × DependsOn gates.now n n × ((k : ℕ) → k < n → DependsOn gates.now k k → ⊥))) }
{
    let rows = feeders(alloc, nets, gates)?;
    let visits = follow_all(alloc, &rows)?;
    for net in 0..nets {
        if is_on_loop(&visits, net) {
            return Ok(Some(net));
        }
    }
    Ok(None)
}
