// Walks over the parts of a form, so many parts far; there is no such place where the parts are fewer.

ghost use Rattle.std.specs.Prelude.{◌≡◌, ◌<◌, ◌≤◌, ◌+◌, ◌^◌, None, Some, IfSome, MatchOption};
ghost use Rattle.sky_base.specs.TreeView.{ands_view, steps_view};
ghost use Rattle.sky_base.specs.StmtView.{arms_view, stms_view};
ghost use Rattle.sky_base_law.specs.Nodes.{node_at};
ghost use Rattle.sky_base_law.specs.Opened.{HasExps, HasLinks, HasAnds, HasSteps, HasArms, HasStms};
ghost use Rattle.sky_machine_code.specs.Shapes.{rest_view, operands_view};
ghost use Rattle.sky_state.specs.Table.{on_by, past_part, past_link, past_and, past_arm, past_stm, past_spot, spot_of};
ghost use Rattle.sky_frozen_fits.specs.Rows.{spot_view, HasSpot, before};

use sky_base::stmt::{Arm, Stmt};
use sky_base::tree::{Expr, Join, Step};
use sky_machine_code::code::Code;
use sky_machine_code::shape::{Operands, Rest, next_operand, next_part};

/// The parts that are left, with the node of the first of them.
#[derive(Drop)]
pub struct PartsAt<'a> {
    pub next: u32,
    pub rest: Rest<'a>,
}

/// After so many parts.
pub fn parts_after<'a>(code: &Code, first: u32, parts: Rest<'a>, count: u32) -> Option<PartsAt<'a>>
    requires { HasExps (λ i. node_at code.now i) (rest_view parts) first }
    ensures { MatchOption result (on_by past_part count (first, rest_view parts.entry) ≡ None)
        (λ p. on_by past_part count (first, rest_view parts.entry) ≡ Some (p.next, rest_view p.rest)) }
{
    let mut next = first;
    let mut rest = parts;
    for _passed in 0..count {
        let Some(part) = next_part(rest) else {
            return None;
        };
        next = code.after_exp(next, part.part);
        rest = part.rest;
    }
    Some(PartsAt { next, rest })
}

/// The operators that are left, with the node of the next operand.
#[derive(Drop)]
pub struct OperandsAt<'a> {
    pub next: u32,
    pub rest: Operands<'a>,
}

/// After so many operators.
pub fn operands_after<'a>(
    code: &Code,
    second: u32,
    operands: Operands<'a>,
    count: u32,
) -> Option<OperandsAt<'a>>
    requires { HasLinks (λ i. node_at code.now i) (operands_view operands) second }
    ensures { MatchOption result (on_by past_link count (second, operands_view operands.entry) ≡ None)
        (λ p. on_by past_link count (second, operands_view operands.entry) ≡ Some (p.next, operands_view p.rest)) }
{
    let mut next = second;
    let mut rest = operands;
    for _passed in 0..count {
        let Some(operand) = next_operand(rest) else {
            return None;
        };
        next = code.after_exp(next, operand.operand);
        rest = operand.rest;
    }
    Some(OperandsAt { next, rest })
}

/// The operands of `&&` or `||` that are left, with the node of the first of them.
#[derive(Drop)]
pub struct JoinsAt<'a> {
    pub next: u32,
    pub rest: &'a [Join],
}

/// After so many operands.
pub fn joins_after<'a>(
    code: &Code,
    second: u32,
    joins: &'a [Join],
    count: u32,
) -> Option<JoinsAt<'a>>
    requires { HasAnds (λ i. node_at code.now i) (ands_view joins.now) second }
    ensures { MatchOption result (on_by past_and count (second, ands_view joins.now) ≡ None)
        (λ p. on_by past_and count (second, ands_view joins.now) ≡ Some (p.next, ands_view p.rest.now)) }
{
    let mut next = second;
    let mut rest = joins;
    for _passed in 0..count {
        let Some((join, more)) = rest.split_first() else {
            return None;
        };
        next = code.after_exp(next, &join.operand);
        rest = more;
    }
    Some(JoinsAt { next, rest })
}

/// The arms that are left, with the node of the first test.
#[derive(Drop)]
pub struct ArmsAt<'a> {
    pub next: u32,
    pub rest: &'a [Arm],
}

/// After so many arms.
pub fn arms_after<'a>(code: &Code, first: u32, arms: &'a [Arm], count: u32) -> Option<ArmsAt<'a>>
    requires { HasArms (λ i. node_at code.now i) (arms_view arms.now) first }
    ensures { MatchOption result (on_by past_arm count (first, arms_view arms.now) ≡ None)
        (λ p. on_by past_arm count (first, arms_view arms.now) ≡ Some (p.next, arms_view p.rest.now)) }
{
    let mut next = first;
    let mut rest = arms;
    for _passed in 0..count {
        let Some((arm, more)) = rest.split_first() else {
            return None;
        };
        next = code.after_block(code.after_exp(next, &arm.test), &arm.body);
        rest = more;
    }
    Some(ArmsAt { next, rest })
}

/// The statements that are left, with the node of the first of them.
#[derive(Drop)]
pub struct StmtsAt<'a> {
    pub next: u32,
    pub rest: &'a [Stmt],
}

/// After so many statements.
pub fn stmts_after<'a>(
    code: &Code,
    first: u32,
    stmts: &'a [Stmt],
    count: u32,
) -> Option<StmtsAt<'a>>
    requires { HasStms (λ i. node_at code.now i) (stms_view stmts.now) first }
    ensures place { MatchOption result (on_by past_stm count (first, stms_view stmts.now) ≡ None)
        (λ p. on_by past_stm count (first, stms_view stmts.now) ≡ Some (p.next, stms_view p.rest.now)) }
    ensures has { IfSome result (λ p. HasStms (λ i. node_at code.now i) (stms_view p.rest.now) p.next) }
{
    let mut next = first;
    let mut rest = stmts;
    for _passed in 0..count {
        let Some((stmt, more)) = rest.split_first() else {
            return None;
        };
        next = code.after_stmt(next, stmt);
        rest = more;
    }
    Some(StmtsAt { next, rest })
}

/// A place among indices and calls: behind the last one, at an index, or at the arguments of a call that are left, with how many
/// came before. The next part stands at the node `next`.
#[derive(Drop)]
pub enum Spot<'a> {
    Finished,
    Index {
        next: u32,
        index: &'a Expr,
        line: u32,
        col: u32,
        rest: &'a [Step],
    },
    Args {
        next: u32,
        before: u64,
        args: &'a [Expr],
        line: u32,
        col: u32,
        rest: &'a [Step],
    },
}

// The first place of these indices and calls.
fn enter<'a>(next: u32, steps: &'a [Step]) -> Spot<'a>
    ensures place { spot_view result ≡ spot_of next (steps_view steps.now) }
    ensures none { before result ≡ 0 }
{
    let Some((step, rest)) = steps.split_first() else {
        return Spot::Finished;
    };
    match step {
        Step::Index { at, line, col } => Spot::Index {
            next,
            index: at,
            line: *line,
            col: *col,
            rest,
        },
        Step::Call { args, line, col } => Spot::Args {
            next,
            before: 0,
            args: args.as_slice(),
            line: *line,
            col: *col,
            rest,
        },
    }
}

// The place after this one, if there is one.
fn past<'a>(code: &Code, spot: Spot<'a>) -> Option<Spot<'a>>
    requires has { HasSpot (λ i. node_at code.now i) (spot_view spot) }
    requires few { before spot < 2 ^ 32 }
    ensures place { MatchOption result (past_spot (spot_view spot.entry) ≡ None) (λ s. past_spot (spot_view spot.entry) ≡ Some (spot_view s)) }
    ensures one { IfSome result (λ s. before s ≤ before spot.entry + 1) }
{
    match spot {
        Spot::Finished => None,
        Spot::Index {
            next,
            index,
            rest,
            ..
        } => Some(enter(code.after_exp(next, index), rest)),
        Spot::Args {
            next,
            before,
            args,
            line,
            col,
            rest,
        } => match args.split_first() {
            None => Some(enter(next, rest)),
            Some((arg, args)) => Some(Spot::Args {
                next: code.after_exp(next, arg),
                before: before + 1,
                args,
                line,
                col,
                rest,
            }),
        },
    }
}

/// After so many places.
pub fn spots_after<'a>(code: &Code, second: u32, steps: &'a [Step], count: u32) -> Option<Spot<'a>>
    requires { HasSteps (λ i. node_at code.now i) (steps_view steps.now) second }
    ensures place { MatchOption result (on_by past_spot count (spot_of second (steps_view steps.now)) ≡ None)
        (λ s. on_by past_spot count (spot_of second (steps_view steps.now)) ≡ Some (spot_view s)) }
    ensures few { IfSome result (λ s. before s ≤ count) }
{
    let mut spot = enter(second, steps);
    for _passed in 0..count {
        let Some(next) = past(code, spot) else {
            return None;
        };
        spot = next;
    }
    Some(spot)
}
