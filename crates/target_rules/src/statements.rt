//! The names that a statement assigns.
ghost use Rattle.std.specs.Prelude.{◌≡◌, flat_map, fold};
ghost use Rattle.hierarchy.specs.Failures.{earlier};
ghost use Rattle.target_rules.specs.Judged.{bad_stmt};

use crate::assignment::Assignment;
use crate::lefts::note_left;
use hierarchy::Earliest;
use nets::Nets;
use vlog_tree::Stmt;

/// Notes each name that the statement assigns and that is no `reg`.
#[cycle(stmts)]
#[tactic(auto, using(crate::proofs::UseLemmas::in_two, crate::proofs::UseLemmas::stmt_block))]
pub(crate) fn note_stmt<'a>(nets: &Nets<'a>, found: &mut Earliest<'a>, stmt: &'a Stmt)
    ensures { found.new ≡ fold earlier found.old (bad_stmt nets.now stmt.now) }
{
    match stmt {
        Stmt::Empty => {}
        Stmt::Block(body) => note_stmts(nets, found, body.as_slice()),
        Stmt::If { first, other, .. } => {
            note_stmt(nets, found, first.get());
            if let Some(other) = other {
                note_stmt(nets, found, other.get());
            }
        }
        Stmt::Set { left, .. } => note_left(Assignment::Procedural, nets, found, left),
    }
}

#[cycle(stmts)]
fn note_stmts<'a>(nets: &Nets<'a>, found: &mut Earliest<'a>, body: &'a [Stmt])
    ensures { found.new ≡ fold earlier found.old (flat_map (bad_stmt nets.now) body.now) }
{
    for stmt in body {
        note_stmt(nets, found, stmt);
    }
}
