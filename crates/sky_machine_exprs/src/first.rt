// The first part of a form is begun.

ghost use Rattle.std.specs.Prelude.{◌≡◌, ◌≤◌, ℕ, List, IfOk};
ghost use Rattle.sky_base.specs.Tree.{Exp};
ghost use Rattle.sky_base.specs.TreeView.{ands_view, signs_view};
ghost use Rattle.sky_base.specs.Res.{visits};
ghost use Rattle.sky_base.specs.Eval.{World, eval};
ghost use Rattle.sky_base_law.specs.Opened.{HasExp};
ghost use Rattle.sky_base_law.specs.Nodes.{node_at};
ghost use Rattle.sky_base_scope.specs.Plain.{Vars};
ghost use Rattle.sky_machine_code.specs.Shapes.{operands_view, stops_at};
ghost use Rattle.sky_machine_entries.specs.Config.{body_in, rest_in, config, opened};
ghost use Rattle.sky_machine_entries.specs.Entries.{forms};
ghost use Rattle.sky_machine_entries.specs.Falls.{GoesIn};
ghost use Rattle.sky_machine_entries.specs.Ready.{AllReady, Goes};

use sky_base::text::Memory;
use sky_base::tree::{Join, SignAt, Sub};
use sky_machine_code::code::Code;
use sky_machine_code::shape::Operands;
use sky_machine_entries::control::Control;
use sky_machine_entries::entry::{ChainFirst, Entry, InForm, Logic, Parens, Prefix};
use sky_machine_entries::list::push;

/// Parentheses.
pub fn begin_parens<'a>(
    code: &Code,
    entries: &mut Vec<Entry<'a>>,
    node: u32,
    inner: &'a Sub,
) -> Result<Control<'a>, Memory>
    requires ready { AllReady code.now entries.old.items }
    requires has { HasExp (λ i. node_at code.now i) (Exp.parens inner.now) node }
    ensures same { IfOk result (λ c. (w : World (List ℕ)) (st : Vars) → config w entries.new.items c st
        ≡ rest_in w entries.old.items (eval w (body_in w (forms entries.old.items)) (Exp.parens inner.entry.now) node st)) }
    ensures ready { IfOk result (λ c. AllReady code.now entries.new.items) }
    ensures goes { IfOk result (λ c. Goes code.now c) }
    ensures opened { IfOk result (λ c. opened (forms entries.new.items) ≡ opened (forms entries.old.items)) }
    ensures falls { IfOk result (λ c. (count : ℕ) → count ≤ visits → GoesIn node count entries.old.items count entries.new.items c) }
{
    push(entries, Entry::Form(InForm::Parens(Parens { node })))?;
    Ok(Control::Begin(code.inside(node), inner.get()))
}

/// A chain of operators, or a comparison.
pub fn begin_chain<'a>(
    code: &Code,
    entries: &mut Vec<Entry<'a>>,
    node: u32,
    first: &'a Sub,
    rest: Operands<'a>,
) -> Result<Control<'a>, Memory>
    requires ready { AllReady code.now entries.old.items }
    requires has { HasExp (λ i. node_at code.now i) (Exp.chain first.now (operands_view rest)) node }
    ensures same { IfOk result (λ c. (w : World (List ℕ)) (st : Vars) → config w entries.new.items c st
        ≡ rest_in w entries.old.items (eval w (body_in w (forms entries.old.items)) (Exp.chain first.entry.now (operands_view rest.entry)) node
        st)) }
    ensures ready { IfOk result (λ c. AllReady code.now entries.new.items) }
    ensures goes { IfOk result (λ c. Goes code.now c) }
    ensures opened { IfOk result (λ c. opened (forms entries.new.items) ≡ opened (forms entries.old.items)) }
    ensures falls { IfOk result (λ c. (count : ℕ) → count ≤ visits → GoesIn node count entries.old.items count entries.new.items c) }
{
    let part = code.inside(node);
    let e = first.get();
    let next = code.after_exp(part, e);
    push(
        entries,
        Entry::Form(InForm::ChainFirst(ChainFirst { node, next, rest })),
    )?;
    Ok(Control::Begin(part, e))
}

/// A chain of `&&`, which stops at false, or of `||`, which stops at true.
pub fn begin_logic<'a>(
    code: &Code,
    entries: &mut Vec<Entry<'a>>,
    node: u32,
    stop: bool,
    first: &'a Sub,
    rest: &'a [Join],
) -> Result<Control<'a>, Memory>
    requires ready { AllReady code.now entries.old.items }
    requires has { HasExp (λ i. node_at code.now i) (Exp.logic (stops_at stop) first.now (ands_view rest.now)) node }
    ensures same { IfOk result (λ c. (w : World (List ℕ)) (st : Vars) → config w entries.new.items c st
        ≡ rest_in w entries.old.items (eval w (body_in w (forms entries.old.items))
        (Exp.logic (stops_at stop) first.entry.now (ands_view rest.entry.now)) node st)) }
    ensures ready { IfOk result (λ c. AllReady code.now entries.new.items) }
    ensures goes { IfOk result (λ c. Goes code.now c) }
    ensures opened { IfOk result (λ c. opened (forms entries.new.items) ≡ opened (forms entries.old.items)) }
    ensures falls { IfOk result (λ c. (count : ℕ) → count ≤ visits → GoesIn node count entries.old.items count entries.new.items c) }
{
    let part = code.inside(node);
    let e = first.get();
    let next = code.after_exp(part, e);
    push(
        entries,
        Entry::Form(InForm::Logic(Logic {
            node,
            step: 1,
            next,
            stop,
            line: 0,
            col: 0,
            rest,
        })),
    )?;
    Ok(Control::Begin(part, e))
}

/// An operand under signs.
pub fn begin_prefix<'a>(
    code: &Code,
    entries: &mut Vec<Entry<'a>>,
    node: u32,
    signs: &'a [SignAt],
    operand: &'a Sub,
) -> Result<Control<'a>, Memory>
    requires ready { AllReady code.now entries.old.items }
    requires has { HasExp (λ i. node_at code.now i) (Exp.prefix (signs_view signs.now) operand.now) node }
    ensures same { IfOk result (λ c. (w : World (List ℕ)) (st : Vars) → config w entries.new.items c st
        ≡ rest_in w entries.old.items (eval w (body_in w (forms entries.old.items)) (Exp.prefix (signs_view signs.entry.now) operand.entry.now)
        node st)) }
    ensures ready { IfOk result (λ c. AllReady code.now entries.new.items) }
    ensures goes { IfOk result (λ c. Goes code.now c) }
    ensures opened { IfOk result (λ c. opened (forms entries.new.items) ≡ opened (forms entries.old.items)) }
    ensures falls { IfOk result (λ c. (count : ℕ) → count ≤ visits → GoesIn node count entries.old.items count entries.new.items c) }
{
    push(entries, Entry::Form(InForm::Prefix(Prefix { node, signs })))?;
    Ok(Control::Begin(code.inside(node), operand.get()))
}
