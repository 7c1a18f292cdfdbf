// The tree of a script.

ghost use Rattle.std.specs.Prelude.{◌≡◌, ◌<◌, ◌^◌, IfOk};
ghost use Rattle.sky_base.specs.Tree.{nodes, exps_nodes, links_nodes, ands_nodes, steps_nodes};
ghost use Rattle.sky_base.specs.TreeView.{exp_view, exps_view, links_view, ands_view, steps_view, step_nodes};

use crate::text::{Memory, Txt};
use std::alloc::Global;
use std::marker::Model;

/// An operator of a chain: `+`, `-`, `*`, `/` or `%`, in this order.
#[derive(Clone, Copy, PartialEq, Eq, Debug)]
pub enum ArithOp {
    Plus,
    Minus,
    Times,
    Over,
    Rest,
}

/// An operator that compares: `==`, `!=`, `<`, `<=`, `>` or `>=`, in this order.
#[derive(Clone, Copy, PartialEq, Eq, Debug)]
pub enum Cmp {
    Eq,
    Ne,
    Lt,
    Le,
    Gt,
    Ge,
}

/// An operator in front of an operand: `!` of a truth value, `-` of a number, `*` of a reference.
#[derive(Clone, Copy, PartialEq, Eq, Debug)]
pub enum SignOp {
    Not,
    Minus,
    Star,
}

/// A literal.
#[derive(Drop)]
pub enum Lit {
    Null,
    Bool(bool),
    Int(i64),
    Text(Txt),
}

/// An expression.
#[cycle(expr)]
pub enum Expr {
    Literal {
        value: Lit,
        line: u32,
        col: u32,
    },
    Name {
        name: Txt,
        line: u32,
        col: u32,
    },
    /// An anonymous function, by its name; its body stands among the functions of the script.
    Function {
        name: Txt,
        line: u32,
        col: u32,
    },
    Parens {
        inner: Sub,
    },
    List {
        items: Exprs,
        line: u32,
        col: u32,
    },
    /// The keys and values in turn.
    Dict {
        items: Exprs,
        line: u32,
        col: u32,
    },
    Chain {
        first: Sub,
        rest: Links,
    },
    Compare {
        left: Sub,
        how: Cmp,
        line: u32,
        col: u32,
        right: Sub,
    },
    And {
        first: Sub,
        rest: Joins,
    },
    Or {
        first: Sub,
        rest: Joins,
    },
    Prefix {
        signs: Vec<SignAt>,
        operand: Sub,
    },
    Postfix {
        first: Sub,
        rest: Steps,
    },
    Spawn {
        fun: Sub,
        args: Sub,
        line: u32,
        col: u32,
    },
    SpawnExec {
        executor: Sub,
        args: Sub,
        outputs: Sub,
        line: u32,
        col: u32,
    },
    Exec {
        executor: Sub,
        args: Sub,
        outputs: Sub,
        line: u32,
        col: u32,
    },
    Ref {
        key: Sub,
        line: u32,
        col: u32,
    },
    Len {
        of: Sub,
        line: u32,
        col: u32,
    },
    Keys {
        of: Sub,
        line: u32,
        col: u32,
    },
    Has {
        dict: Sub,
        key: Sub,
        line: u32,
        col: u32,
    },
    Range {
        from: Sub,
        to: Sub,
        line: u32,
        col: u32,
    },
}

// Written by hand, so that a value that is let go of is one call and not a match over all forms.
impl Drop for Expr {
    #[cycle(expr_drop)]
    fn drop(self) {
        match self {
            Expr::Literal {
                value: _,
                line: _,
                col: _,
            } => {}
            Expr::Name {
                name: _,
                line: _,
                col: _,
            } => {}
            Expr::Function {
                name: _,
                line: _,
                col: _,
            } => {}
            Expr::Parens { inner: _ } => {}
            Expr::List {
                items: _,
                line: _,
                col: _,
            } => {}
            Expr::Dict {
                items: _,
                line: _,
                col: _,
            } => {}
            Expr::Chain { first: _, rest: _ } => {}
            Expr::Compare {
                left: _,
                how: _,
                line: _,
                col: _,
                right: _,
            } => {}
            Expr::And { first: _, rest: _ } => {}
            Expr::Or { first: _, rest: _ } => {}
            Expr::Prefix {
                signs: _,
                operand: _,
            } => {}
            Expr::Postfix { first: _, rest: _ } => {}
            Expr::Spawn {
                fun: _,
                args: _,
                line: _,
                col: _,
            } => {}
            Expr::SpawnExec {
                executor: _,
                args: _,
                outputs: _,
                line: _,
                col: _,
            } => {}
            Expr::Exec {
                executor: _,
                args: _,
                outputs: _,
                line: _,
                col: _,
            } => {}
            Expr::Ref {
                key: _,
                line: _,
                col: _,
            } => {}
            Expr::Len {
                of: _,
                line: _,
                col: _,
            } => {}
            Expr::Keys {
                of: _,
                line: _,
                col: _,
            } => {}
            Expr::Has {
                dict: _,
                key: _,
                line: _,
                col: _,
            } => {}
            Expr::Range {
                from: _,
                to: _,
                line: _,
                col: _,
            } => {}
        }
    }
}

/// A boxed expression.
#[cycle(expr)]
#[derive(Drop)]
pub struct Sub {
    node: Box<Expr>,
}

impl Model for Sub {
    ghost use Rattle.sky_base.specs.Tree as logic;
    ghost use Rattle.sky_base.specs.TreeCode.{exp_code};

    ghost Value = { logic.Exp };

    ghost coded = { exp_code };

    ghost use Rattle.sky_base.specs.TreeView.{exp_view};

    ghost view = { λ a. exp_view a.node.value };

    ghost use Rattle.sky_base.specs.Tree.{weight};

    ghost size = { weight };

    ghost use Rattle.sky_base.specs.TreeFalls.{exp_falls};
    ghost use Rattle.std.proofs.Common.{arith};

    ghost size_decreases = { λ a h. omega (arith, exp_falls a.node.value) };
}

/// Expressions.
#[cycle(expr)]
#[derive(Drop)]
pub struct Exprs {
    items: Vec<Expr>,
}

impl Model for Exprs {
    ghost use Rattle.sky_base.specs.Tree as logic;
    ghost use Rattle.sky_base.specs.TreeCode.{exps_code};

    ghost Value = { logic.Exps };

    ghost coded = { exps_code };

    ghost use Rattle.sky_base.specs.TreeView.{exps_view};

    ghost view = { λ a. exps_view a.items.items };

    ghost use Rattle.sky_base.specs.Tree.{exps_weight};

    ghost size = { exps_weight };

    ghost use Rattle.sky_base.specs.TreeFalls.{exps_fall};
    ghost use Rattle.std.proofs.Common.{arith};

    ghost size_decreases = { λ a h. omega (arith, exps_fall a.items.items) };
}

/// An operator of a chain and its right operand.
#[cycle(expr)]
#[derive(Drop)]
pub struct Link {
    pub op: ArithOp,
    pub line: u32,
    pub col: u32,
    pub operand: Expr,
}

/// The rest of a chain.
#[cycle(expr)]
#[derive(Drop)]
pub struct Links {
    items: Vec<Link>,
}

impl Model for Links {
    ghost use Rattle.sky_base.specs.Tree as logic;
    ghost use Rattle.sky_base.specs.TreeCode.{links_code};

    ghost Value = { logic.Links };

    ghost coded = { links_code };

    ghost use Rattle.sky_base.specs.TreeView.{links_view};

    ghost view = { λ a. links_view a.items.items };

    ghost use Rattle.sky_base.specs.Tree.{links_weight};

    ghost size = { links_weight };

    ghost use Rattle.sky_base.specs.TreeFalls.{links_fall};
    ghost use Rattle.std.proofs.Common.{arith};

    ghost size_decreases = { λ a h. omega (arith, links_fall a.items.items) };
}

/// An `&&` or `||` and its right operand.
#[cycle(expr)]
#[derive(Drop)]
pub struct Join {
    pub line: u32,
    pub col: u32,
    pub operand: Expr,
}

/// The rest of a chain of `&&` or of `||`.
#[cycle(expr)]
#[derive(Drop)]
pub struct Joins {
    items: Vec<Join>,
}

impl Model for Joins {
    ghost use Rattle.sky_base.specs.Tree as logic;
    ghost use Rattle.sky_base.specs.TreeCode.{ands_code};

    ghost Value = { logic.Ands };

    ghost coded = { ands_code };

    ghost use Rattle.sky_base.specs.TreeView.{ands_view};

    ghost view = { λ a. ands_view a.items.items };

    ghost use Rattle.sky_base.specs.Tree.{ands_weight};

    ghost size = { ands_weight };

    ghost use Rattle.sky_base.specs.TreeFalls.{ands_fall};
    ghost use Rattle.std.proofs.Common.{arith};

    ghost size_decreases = { λ a h. omega (arith, ands_fall a.items.items) };
}

/// A sign of a prefix.
#[derive(Clone, Copy, PartialEq, Eq, Debug)]
pub struct SignAt {
    pub sign: SignOp,
    pub line: u32,
    pub col: u32,
}

/// An index or a call.
#[cycle(expr)]
#[derive(Drop)]
pub enum Step {
    Index { at: Expr, line: u32, col: u32 },
    Call { args: Exprs, line: u32, col: u32 },
}

/// The indices and calls of a postfix.
#[cycle(expr)]
#[derive(Drop)]
pub struct Steps {
    items: Vec<Step>,
}

impl Model for Steps {
    ghost use Rattle.sky_base.specs.Tree as logic;
    ghost use Rattle.sky_base.specs.TreeCode.{steps_code};

    ghost Value = { logic.Steps };

    ghost coded = { steps_code };

    ghost use Rattle.sky_base.specs.TreeView.{steps_view};

    ghost view = { λ a. steps_view a.items.items };

    ghost use Rattle.sky_base.specs.Tree.{steps_weight};

    ghost size = { steps_weight };

    ghost use Rattle.sky_base.specs.TreeFalls.{steps_fall};
    ghost use Rattle.std.proofs.Common.{arith};

    ghost size_decreases = { λ a h. omega (arith, steps_fall a.items.items) };
}

impl Expr {
    /// How many nodes the tree has.
    #[cycle(nodes)]
    pub fn nodes(&self) -> u64
        requires { nodes (exp_view self.now) < 2 ^ 32 }
        ensures { result ≡ nodes (exp_view self.now) }
    {
        match self {
            Expr::Literal { .. } | Expr::Name { .. } | Expr::Function { .. } => 1,
            Expr::Parens { inner } => 1 + inner.nodes(),
            Expr::List { items, .. } | Expr::Dict { items, .. } => 1 + items.nodes(),
            Expr::Chain { first, rest } => 1 + first.nodes() + rest.nodes(),
            Expr::Compare { left, right, .. } => 1 + left.nodes() + right.nodes(),
            Expr::And { first, rest } | Expr::Or { first, rest } => 1
                + first.nodes()
                + rest.nodes(),
            Expr::Prefix { operand, .. } => 1 + operand.nodes(),
            Expr::Postfix { first, rest } => 1 + first.nodes() + rest.nodes(),
            Expr::Spawn { fun, args, .. } => 1 + fun.nodes() + args.nodes(),
            Expr::SpawnExec {
                executor,
                args,
                outputs,
                ..
            } => 1 + executor.nodes() + args.nodes() + outputs.nodes(),
            Expr::Exec {
                executor,
                args,
                outputs,
                ..
            } => 1 + executor.nodes() + args.nodes() + outputs.nodes(),
            Expr::Ref { key, .. } => 1 + key.nodes(),
            Expr::Len { of, .. } | Expr::Keys { of, .. } => 1 + of.nodes(),
            Expr::Has { dict, key, .. } => 1 + dict.nodes() + key.nodes(),
            Expr::Range { from, to, .. } => 1 + from.nodes() + to.nodes(),
        }
    }
}

impl Sub {
    /// The expression, boxed.
    pub fn new(alloc: Global, node: Expr) -> Result<Sub, Memory>
        ensures { IfOk result (λ s. s ≡ exp_view node) }
    {
        match Box::new(alloc, node) {
            Ok(node) => Ok(Sub { node }),
            Err(_) => Err(Memory),
        }
    }

    /// The expression itself.
    pub fn get(&self) -> &Expr
        ensures { exp_view result.now ≡ self.now }
    {
        &self.node
    }

    /// How many nodes the expression has, itself included.
    #[cycle(nodes)]
    pub fn nodes(&self) -> u64
        requires { nodes self.now < 2 ^ 32 }
        ensures { result ≡ nodes self.now }
    {
        self.node.nodes()
    }
}

impl Exprs {
    /// The expressions, in order.
    pub fn of(items: Vec<Expr>) -> Exprs
        ensures { result ≡ exps_view items.items }
    {
        Exprs { items }
    }

    /// The expressions themselves.
    pub fn as_slice(&self) -> &[Expr]
        ensures { exps_view result.now ≡ self.now }
    {
        self.items.as_slice()
    }

    /// How many nodes the expressions have together.
    #[cycle(nodes)]
    pub fn nodes(&self) -> u64
        requires { exps_nodes self.now < 2 ^ 32 }
        ensures { result ≡ exps_nodes self.now }
    {
        let mut total = 0;
        for e in &self.items {
            total += e.nodes();
        }
        total
    }
}

impl Links {
    /// The operators and operands, in order.
    pub fn of(items: Vec<Link>) -> Links
        ensures { result ≡ links_view items.items }
    {
        Links { items }
    }

    /// The operators and operands themselves.
    pub fn as_slice(&self) -> &[Link]
        ensures { links_view result.now ≡ self.now }
    {
        self.items.as_slice()
    }

    /// How many nodes the operands have together.
    #[cycle(nodes)]
    pub fn nodes(&self) -> u64
        requires { links_nodes self.now < 2 ^ 32 }
        ensures { result ≡ links_nodes self.now }
    {
        let mut total = 0;
        for link in &self.items {
            total += link.operand.nodes();
        }
        total
    }
}

impl Joins {
    /// The operands, in order.
    pub fn of(items: Vec<Join>) -> Joins
        ensures { result ≡ ands_view items.items }
    {
        Joins { items }
    }

    /// The operands themselves.
    pub fn as_slice(&self) -> &[Join]
        ensures { ands_view result.now ≡ self.now }
    {
        self.items.as_slice()
    }

    /// How many nodes the operands have together.
    #[cycle(nodes)]
    pub fn nodes(&self) -> u64
        requires { ands_nodes self.now < 2 ^ 32 }
        ensures { result ≡ ands_nodes self.now }
    {
        let mut total = 0;
        for join in &self.items {
            total += join.operand.nodes();
        }
        total
    }
}

impl Steps {
    /// The steps, in order.
    pub fn of(items: Vec<Step>) -> Steps
        ensures { result ≡ steps_view items.items }
    {
        Steps { items }
    }

    /// The steps themselves.
    pub fn as_slice(&self) -> &[Step]
        ensures { steps_view result.now ≡ self.now }
    {
        self.items.as_slice()
    }

    /// How many nodes the steps have together.
    #[cycle(nodes)]
    pub fn nodes(&self) -> u64
        requires { steps_nodes self.now < 2 ^ 32 }
        ensures { result ≡ steps_nodes self.now }
    {
        let mut total = 0;
        for step in &self.items {
            total += step.nodes();
        }
        total
    }
}

impl Step {
    #[cycle(nodes)]
    fn nodes(&self) -> u64
        requires { step_nodes self.now < 2 ^ 32 }
        ensures { result ≡ step_nodes self.now }
    {
        match self {
            Step::Index { at, .. } => at.nodes(),
            Step::Call { args, .. } => args.nodes(),
        }
    }
}
