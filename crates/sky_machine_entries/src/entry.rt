// The forms under way: each with its node, its step where it has more than one, the number of the node that comes next,
// the subtrees that are still to come, and the values that it keeps. They mirror the entries of the meaning, one for
// one, in four groups, so that no function has to tell more than a handful apart. Signs and calls have no node of their
// own, so the steps of prefixes and postfixes are counted in a wider type than nodes are numbered in.

use sky_base::name::Name;
use sky_base::names::Names;
use sky_base::stmt::{Arm, Block, Stmt};
use sky_base::text::Txt;
use sky_base::tree::{Expr, Join, SignAt, Step};
use sky_base::value::{Vals, Value};
use sky_machine_code::shape::{Op, Operands, PartForm, Rest};
use sky_machine_code::state::State;

/// Parentheses, whose inner expression is pending.
#[derive(Drop)]
pub struct Parens {
    pub node: u32,
}

/// A form with parts, one of which is pending.
#[derive(Drop)]
pub struct Part<'a> {
    pub node: u32,
    pub step: usize,
    pub next: u32,
    pub form: PartForm,
    pub line: u32,
    pub col: u32,
    pub values: Vals,
    pub rest: Rest<'a>,
}

/// A chain whose first operand is pending.
#[derive(Drop)]
pub struct ChainFirst<'a> {
    pub node: u32,
    pub next: u32,
    pub rest: Operands<'a>,
}

/// A chain whose operand after an operator is pending, with the value so far.
#[derive(Drop)]
pub struct ChainMore<'a> {
    pub node: u32,
    pub step: usize,
    pub next: u32,
    pub op: Op,
    pub line: u32,
    pub col: u32,
    pub value: Value,
    pub rest: Operands<'a>,
}

/// A chain of `&&` or `||`, an operand of which is pending; the place is that of the operator before it.
#[derive(Drop)]
pub struct Logic<'a> {
    pub node: u32,
    pub step: usize,
    pub next: u32,
    pub stop: bool,
    pub line: u32,
    pub col: u32,
    pub rest: &'a [Join],
}

/// Signs whose operand is pending.
#[derive(Drop)]
pub struct Prefix<'a> {
    pub node: u32,
    pub signs: &'a [SignAt],
}

/// A `*` that waits, with the signs before it in the text.
#[derive(Drop)]
pub struct Star<'a> {
    pub node: u32,
    pub step: u128,
    pub name: Name,
    pub signs: &'a [SignAt],
}

/// An `exec` that waits for its outputs.
#[derive(Drop)]
pub struct ExecWait {
    pub node: u32,
    pub names: Names,
}

/// Indices and calls whose first value is pending.
#[derive(Drop)]
pub struct PostfixFirst<'a> {
    pub node: u32,
    pub next: u32,
    pub rest: &'a [Step],
}

/// An index that is pending, with the value so far.
#[derive(Drop)]
pub struct Index<'a> {
    pub node: u32,
    pub step: u128,
    pub next: u32,
    pub line: u32,
    pub col: u32,
    pub value: Value,
    pub rest: &'a [Step],
}

/// An argument that is pending, with the function and the arguments so far.
#[derive(Drop)]
pub struct Arg<'a> {
    pub node: u32,
    pub step: u128,
    pub next: u32,
    pub line: u32,
    pub col: u32,
    pub fun: Value,
    pub args: Vals,
    pub more: &'a [Expr],
    pub rest: &'a [Step],
}

/// A call whose body is open, with the function's name and the caller's variables.
#[derive(Drop)]
pub struct Open<'a> {
    pub node: u32,
    pub step: u128,
    pub next: u32,
    pub fun: Txt,
    pub caller: State,
    pub rest: &'a [Step],
}

/// `x = e;`, whose expression is pending.
#[derive(Drop)]
pub struct Set<'a> {
    pub node: u32,
    pub name: &'a Txt,
}

/// `x += e;`, whose expression is pending.
#[derive(Drop)]
pub struct Add<'a> {
    pub node: u32,
    pub name: &'a Txt,
    pub name_line: u32,
    pub name_col: u32,
    pub line: u32,
    pub col: u32,
}

/// `x[i] = e;`, whose index is pending.
#[derive(Drop)]
pub struct PutIndex<'a> {
    pub node: u32,
    pub next: u32,
    pub name: &'a Txt,
    pub name_line: u32,
    pub name_col: u32,
    pub line: u32,
    pub col: u32,
    pub value: &'a Expr,
}

/// `x[i] = e;`, whose expression is pending, with the index.
#[derive(Drop)]
pub struct PutValue<'a> {
    pub node: u32,
    pub name: &'a Txt,
    pub name_line: u32,
    pub name_col: u32,
    pub line: u32,
    pub col: u32,
    pub at: Value,
}

/// `return e;` or `e;`, whose expression is pending.
#[derive(Drop)]
pub struct Whole {
    pub node: u32,
}

/// The test of an arm, which is pending: with the arm's block and its node, the further arms, and the last block, whose
/// node comes after theirs.
#[derive(Drop)]
pub struct ArmTest<'a> {
    pub node: u32,
    pub step: usize,
    pub block: u32,
    pub line: u32,
    pub col: u32,
    pub body: &'a Block,
    pub arms: &'a [Arm],
    pub otherwise: Option<&'a Block>,
}

/// A `while`, whose test is pending or whose body runs, with the node of its block.
#[derive(Drop)]
pub struct While<'a> {
    pub node: u32,
    pub block: u32,
    pub line: u32,
    pub col: u32,
    pub test: &'a Expr,
    pub body: &'a Block,
}

/// A `do`, whose body runs or whose test is pending, with the node of its test.
#[derive(Drop)]
pub struct Repeat<'a> {
    pub node: u32,
    pub test_at: u32,
    pub line: u32,
    pub col: u32,
    pub body: &'a Block,
    pub test: &'a Expr,
}

/// A `for`, whose list is pending, with the node of its block.
#[derive(Drop)]
pub struct ForList<'a> {
    pub node: u32,
    pub block: u32,
    pub line: u32,
    pub col: u32,
    pub name: &'a Txt,
    pub body: &'a Block,
}

/// A `for`, whose body runs, with the list as it was at the start and how many elements were taken.
#[derive(Drop)]
pub struct ForBody<'a> {
    pub node: u32,
    pub block: u32,
    pub taken: usize,
    pub line: u32,
    pub col: u32,
    pub name: &'a Txt,
    pub list: Vals,
    pub body: &'a Block,
}

/// A block, a statement of which runs, with those after it, the number of the first of them and its node.
#[derive(Drop)]
pub struct BlockAt<'a> {
    pub node: u32,
    pub step: usize,
    pub next: u32,
    pub rest: &'a [Stmt],
}

/// A form of an expression under way, but for indices and calls.
#[derive(Drop)]
pub enum InForm<'a> {
    Parens(Parens),
    Part(Part<'a>),
    ChainFirst(ChainFirst<'a>),
    ChainMore(ChainMore<'a>),
    Logic(Logic<'a>),
    Prefix(Prefix<'a>),
    Star(Star<'a>),
    ExecWait(ExecWait),
}

/// Indices and calls under way.
#[derive(Drop)]
pub enum InPostfix<'a> {
    First(PostfixFirst<'a>),
    Index(Index<'a>),
    Arg(Arg<'a>),
    Open(Open<'a>),
}

/// A statement under way that has no block.
#[derive(Drop)]
pub enum InStmt<'a> {
    Set(Set<'a>),
    Add(Add<'a>),
    PutIndex(PutIndex<'a>),
    PutValue(PutValue<'a>),
    Return(Whole),
    Just(Whole),
}

/// A block under way, or a statement that has one.
#[derive(Drop)]
pub enum InBlock<'a> {
    Arm(ArmTest<'a>),
    WhileTest(While<'a>),
    WhileBody(While<'a>),
    RepeatBody(Repeat<'a>),
    RepeatTest(Repeat<'a>),
    ForList(ForList<'a>),
    ForBody(ForBody<'a>),
    Block(BlockAt<'a>),
}

/// A form under way.
#[derive(Drop)]
pub enum Entry<'a> {
    Form(InForm<'a>),
    Postfix(InPostfix<'a>),
    Stmt(InStmt<'a>),
    Block(InBlock<'a>),
}
