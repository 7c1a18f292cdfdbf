// The shapes of expressions. Twenty forms of the text are nine shapes, as the meaning has them: a form with parts is one
// shape, whether its parts stand in a list or each by itself, and a comparison is a chain with one operator.

ghost use Rattle.std.specs.Prelude.{◌≡◌, MatchOption};
ghost use Rattle.sky_base.specs.Tree.{Exps, Links};
ghost use Rattle.sky_base.specs.TreeView.{at, exp_view};
ghost use Rattle.sky_machine_code.specs.Shapes.{shape_view, rest_view, operands_view, op_view};

use sky_base::text::Txt;
use sky_base::tree::{ArithOp, Cmp, Expr, Join, Link, Lit, SignAt, Step, Sub};

/// The forms that are visited after all of their parts.
#[derive(Clone, Copy, PartialEq, Eq, Debug)]
pub enum PartForm {
    List,
    Dict,
    Spawn,
    SpawnExec,
    Exec,
    Ref,
    Len,
    Keys,
    Has,
    Range,
}

/// An operator of a chain.
#[derive(Clone, Copy, PartialEq, Eq, Debug)]
pub enum Op {
    Arith(ArithOp),
    Compare(Cmp),
}

/// The parts of a form that are left.
#[derive(Clone, Copy, Drop)]
pub enum Rest<'a> {
    Nothing,
    One(&'a Sub),
    Two(&'a Sub, &'a Sub),
    Three(&'a Sub, &'a Sub, &'a Sub),
    Many(&'a [Expr]),
}

/// The operators of a chain that are left, each with its right operand.
#[derive(Clone, Copy, Drop)]
pub enum Operands<'a> {
    Nothing,
    One {
        how: Cmp,
        line: u32,
        col: u32,
        right: &'a Sub,
    },
    Many(&'a [Link]),
}

/// What an expression is seen as.
#[derive(Clone, Copy, Drop)]
pub enum Shape<'a> {
    Literal {
        value: &'a Lit,
        line: u32,
        col: u32,
    },
    Name {
        name: &'a Txt,
        line: u32,
        col: u32,
    },
    Function {
        name: &'a Txt,
        line: u32,
        col: u32,
    },
    Parens {
        inner: &'a Sub,
    },
    Parts {
        form: PartForm,
        line: u32,
        col: u32,
        parts: Rest<'a>,
    },
    Chain {
        first: &'a Sub,
        rest: Operands<'a>,
    },
    /// A chain of `&&`, which stops at false, or of `||`, which stops at true.
    Logic {
        stop: bool,
        first: &'a Sub,
        rest: &'a [Join],
    },
    Prefix {
        signs: &'a [SignAt],
        operand: &'a Sub,
    },
    Postfix {
        first: &'a Sub,
        rest: &'a [Step],
    },
}

/// The next part of a form, and those after it.
#[derive(Clone, Copy, Drop)]
pub struct Next<'a> {
    pub part: &'a Expr,
    pub rest: Rest<'a>,
}

/// The next operator of a chain with its right operand, and those after it.
#[derive(Clone, Copy, Drop)]
pub struct Operand<'a> {
    pub op: Op,
    pub line: u32,
    pub col: u32,
    pub operand: &'a Expr,
    pub rest: Operands<'a>,
}

/// What an expression is seen as.
pub fn shape_of<'a>(e: &'a Expr) -> Shape<'a>
    ensures { shape_view result ≡ exp_view e.now }
{
    match e {
        Expr::Literal { value, line, col } => Shape::Literal {
            value,
            line: *line,
            col: *col,
        },
        Expr::Name { name, line, col } => Shape::Name {
            name,
            line: *line,
            col: *col,
        },
        Expr::Function { name, line, col } => Shape::Function {
            name,
            line: *line,
            col: *col,
        },
        Expr::Parens { inner } => Shape::Parens { inner },
        Expr::List { items, line, col } => parts(
            PartForm::List,
            *line,
            *col,
            Rest::Many(items.as_slice()),
        ),
        Expr::Dict { items, line, col } => parts(
            PartForm::Dict,
            *line,
            *col,
            Rest::Many(items.as_slice()),
        ),
        Expr::Chain { first, rest } => Shape::Chain {
            first,
            rest: Operands::Many(rest.as_slice()),
        },
        Expr::Compare {
            left,
            how,
            line,
            col,
            right,
        } => Shape::Chain {
            first: left,
            rest: Operands::One {
                how: *how,
                line: *line,
                col: *col,
                right,
            },
        },
        Expr::And { first, rest } => Shape::Logic {
            stop: false,
            first,
            rest: rest.as_slice(),
        },
        Expr::Or { first, rest } => Shape::Logic {
            stop: true,
            first,
            rest: rest.as_slice(),
        },
        Expr::Prefix { signs, operand } => Shape::Prefix {
            signs: signs.as_slice(),
            operand,
        },
        Expr::Postfix { first, rest } => Shape::Postfix {
            first,
            rest: rest.as_slice(),
        },
        Expr::Spawn {
            fun,
            args,
            line,
            col,
        } => parts(PartForm::Spawn, *line, *col, Rest::Two(fun, args)),
        Expr::SpawnExec {
            executor,
            args,
            outputs,
            line,
            col,
        } => parts(
            PartForm::SpawnExec,
            *line,
            *col,
            Rest::Three(executor, args, outputs),
        ),
        Expr::Exec {
            executor,
            args,
            outputs,
            line,
            col,
        } => parts(
            PartForm::Exec,
            *line,
            *col,
            Rest::Three(executor, args, outputs),
        ),
        Expr::Ref { key, line, col } => parts(PartForm::Ref, *line, *col, Rest::One(key)),
        Expr::Len { of, line, col } => parts(PartForm::Len, *line, *col, Rest::One(of)),
        Expr::Keys { of, line, col } => parts(PartForm::Keys, *line, *col, Rest::One(of)),
        Expr::Has {
            dict,
            key,
            line,
            col,
        } => parts(PartForm::Has, *line, *col, Rest::Two(dict, key)),
        Expr::Range {
            from,
            to,
            line,
            col,
        } => parts(PartForm::Range, *line, *col, Rest::Two(from, to)),
    }
}

fn parts<'a>(form: PartForm, line: u32, col: u32, parts: Rest<'a>) -> Shape<'a>
    ensures { result ≡ Shape.Parts form line col parts.entry }
{
    Shape::Parts {
        form,
        line,
        col,
        parts,
    }
}

/// The next of the parts that are left, if there is one.
pub fn next_part<'a>(rest: Rest<'a>) -> Option<Next<'a>>
    ensures { MatchOption result (rest_view rest.entry ≡ Exps.no_exps)
        (λ n. rest_view rest.entry ≡ Exps.exp (exp_view n.part.now) (rest_view n.rest)) }
{
    match rest {
        Rest::Nothing => None,
        Rest::One(a) => Some(Next {
            part: a.get(),
            rest: Rest::Nothing,
        }),
        Rest::Two(a, b) => Some(Next {
            part: a.get(),
            rest: Rest::One(b),
        }),
        Rest::Three(a, b, c) => Some(Next {
            part: a.get(),
            rest: Rest::Two(b, c),
        }),
        Rest::Many(parts) => match parts.split_first() {
            None => None,
            Some((part, rest)) => Some(Next {
                part,
                rest: Rest::Many(rest),
            }),
        },
    }
}

/// The next of the operators that are left, if there is one.
pub fn next_operand<'a>(rest: Operands<'a>) -> Option<Operand<'a>>
    ensures { MatchOption result (operands_view rest.entry ≡ Links.no_links)
        (λ n. operands_view rest.entry ≡ Links.link (op_view n.op) (at n.line n.col) (exp_view n.operand.now) (operands_view n.rest)) }
{
    match rest {
        Operands::Nothing => None,
        Operands::One {
            how,
            line,
            col,
            right,
        } => Some(Operand {
            op: Op::Compare(how),
            line,
            col,
            operand: right.get(),
            rest: Operands::Nothing,
        }),
        Operands::Many(links) => match links.split_first() {
            None => None,
            Some((link, rest)) => Some(Operand {
                op: Op::Arith(link.op),
                line: link.line,
                col: link.col,
                operand: &link.operand,
                rest: Operands::Many(rest),
            }),
        },
    }
}
