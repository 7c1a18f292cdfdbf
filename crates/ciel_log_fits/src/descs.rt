//! Whether descriptions and objects are ones that the job allows.

ghost use Rattle.std.specs.Prelude.{◌≡◌, ℕ, List, IfOk, IsFalse, IsTrue};
ghost use Rattle.sky_base.specs.ObjectView.{desc_view, object_view};
ghost use Rattle.sky_base.specs.Val.{call, input, no_pairs, no_vals, out};
ghost use Rattle.sky_base.specs.View.{view};
ghost use Rattle.sky_base.specs.declared.object.Named as rust;
ghost use Rattle.sky_base_law.specs.Sound.{IsMain, SoundDesc, SoundObject};
ghost use Rattle.ciel_journal.specs.Job.{Each};
ghost use Rattle.ciel_master_board.specs.Reports.{named_view};
ghost use Rattle.ciel_master_safe.specs.Safe.{Serves};

use crate::allowed::Allowed;
use sky_base::object::{Desc1, Named, Object};
use sky_base::text::{Memory, Txt};
use sky_base::value::{Pairs, Vals, Value};

/// How many outputs an executor may make.
const MOST_OUTPUTS: u32 = 64;

/// Whether a description is one that the job allows: each function that stands in it is the script's and captured only names that it uses,
/// and a call has as many arguments as its function has parameters; an executor has at most 64 outputs, and the index is one of them; an
/// input is one of the job's; and all keep the limits. What it stands for can then be served. The names in it may be any.
///
/// Answers `Memory` for want of memory.
pub fn is_allowed(script: &Allowed, desc: &Desc1) -> Result<bool, Memory>
    ensures yes { IfOk result (λ b. IsTrue b → SoundDesc script.now (desc_view desc.now)) }
    ensures serves { IfOk result (λ b. IsTrue b → Serves script.now script.now.keys desc.now) }
    ensures no { IfOk result (λ b. IsFalse b → SoundDesc script.now (desc_view desc.now) → ⊥) }
{
    let allowed = is_sound_desc(script, desc)?;
    Ok(allowed)
}

/// Whether each of these is one that the job allows. What they stand for can then be served.
///
/// Answers `Memory` for want of memory.
pub fn all_allowed(script: &Allowed, spawned: &[Named]) -> Result<bool, Memory>
    ensures yes { IfOk result (λ b. IsTrue b → Each (λ (n : rust.Named). SoundDesc script.now (named_view n)) spawned.now) }
    ensures serves { IfOk result (λ b. IsTrue b → Each (λ (n : rust.Named). Serves script.now script.now.keys n.desc) spawned.now) }
    ensures no { IfOk result (λ b. IsFalse b → Each (λ (n : rust.Named). SoundDesc script.now (named_view n)) spawned.now → ⊥) }
{
    let allowed = all_sound(script, spawned)?;
    Ok(allowed)
}

/// Whether an object is one that the job allows: its value, if it has one, keeps the limits, and each function in it is one of the script
/// and captured only names that it uses. The names in it may be any.
pub fn is_allowed_object(script: &Allowed, object: &Object) -> bool
    ensures yes { IsTrue result → SoundObject script.now (object_view object.now) }
    ensures no { IsFalse result → SoundObject script.now (object_view object.now) → ⊥ }
{
    match object {
        Object::Data(value) => script.is_sound(value),
        Object::Bytes(_) | Object::Fault(_) => true,
    }
}

/// Whether each of these is sound for the script.
fn all_sound(script: &Allowed, spawned: &[Named]) -> Result<bool, Memory>
    ensures yes { IfOk result (λ b. IsTrue b → Each (λ (n : rust.Named). SoundDesc script.now (named_view n)) spawned.now) }
    ensures no { IfOk result (λ b. IsFalse b → Each (λ (n : rust.Named). SoundDesc script.now (named_view n)) spawned.now → ⊥) }
{
    for named in spawned {
        if !is_sound_desc(script, &named.desc)? {
            return Ok(false);
        }
    }
    Ok(true)
}

/// Whether a description is sound for the script.
fn is_sound_desc(script: &Allowed, desc: &Desc1) -> Result<bool, Memory>
    ensures yes { IfOk result (λ b. IsTrue b → SoundDesc script.now (desc_view desc.now)) }
    ensures no { IfOk result (λ b. IsFalse b → SoundDesc script.now (desc_view desc.now) → ⊥) }
{
    match desc {
        Desc1::Call { fun, caught, args } => {
            let sound = is_sound_call(script, fun, caught, args)?;
            Ok(sound)
        }
        Desc1::Exec {
            executor,
            args,
            outputs,
            index,
        } => {
            let sound = is_sound_output(script, executor, args, *outputs, *index)?;
            Ok(sound)
        }
        Desc1::Input { key } => {
            let sound = is_sound_input(script, key)?;
            Ok(sound)
        }
    }
}

/// Whether a call is sound for the script: that of `main`, or one of a function with as many parameters, which uses what was captured.
fn is_sound_call(script: &Allowed, fun: &Txt, caught: &Pairs, args: &Vals) -> Result<bool, Memory>
    ensures yes { IfOk result (λ b. IsTrue b → SoundDesc script.now (call fun.now caught.now args.now)) }
    ensures no { IfOk result (λ b. IsFalse b → SoundDesc script.now (call fun.now caught.now args.now) → ⊥) }
{
    if is_main(fun, caught, args) {
        return Ok(true);
    }
    let function = Value::Fun {
        name: fun.share()?,
        caught: caught.copy()?,
    };
    let list = Value::List(args.copy()?);
    Ok(script.has_function(fun, args) && script.is_sound(&function) && script.is_sound(&list))
}

/// Whether an executor's output is sound for the script.
fn is_sound_output(
    script: &Allowed,
    executor: &Txt,
    args: &Value,
    outputs: u32,
    index: u32,
) -> Result<bool, Memory>
    ensures yes { IfOk result (λ b. IsTrue b → SoundDesc script.now (out executor.now (view args.now) outputs index)) }
    ensures no { IfOk result (λ b. IsFalse b → SoundDesc script.now (out executor.now (view args.now) outputs index) → ⊥) }
{
    let name = Value::Text(executor.share()?);
    Ok(
        index < outputs
            && outputs <= MOST_OUTPUTS
            && script.is_sound(&name)
            && script.is_sound(args),
    )
}

/// Whether an input is one of the job's, by a name that keeps the limits.
fn is_sound_input(script: &Allowed, key: &Txt) -> Result<bool, Memory>
    ensures yes { IfOk result (λ b. IsTrue b → SoundDesc {N = List ℕ} script.now (input key.now)) }
    ensures no { IfOk result (λ b. IsFalse b → SoundDesc {N = List ℕ} script.now (input key.now) → ⊥) }
{
    let name = Value::Text(key.share()?);
    Ok(script.is_sound(&name) && script.has_key(key))
}

/// Whether a call is that of `main`, with nothing captured and no arguments.
fn is_main(fun: &Txt, caught: &Pairs, args: &Vals) -> bool
    ensures yes { IsTrue result → IsMain fun.now caught.now args.now }
    ensures no { IsFalse result → IsMain fun.now caught.now args.now → ⊥ }
{
    fun.is_empty() && has_none(caught) && is_none(args)
}

/// Whether nothing was captured.
fn has_none(caught: &Pairs) -> bool
    ensures yes { IsTrue result → caught.now ≡ no_pairs }
    ensures no { IsFalse result → caught.now ≡ no_pairs → ⊥ }
{
    caught.len() == 0
}

/// Whether there are no arguments.
fn is_none(args: &Vals) -> bool
    ensures yes { IsTrue result → args.now ≡ no_vals }
    ensures no { IsFalse result → args.now ≡ no_vals → ⊥ }
{
    args.len() == 0
}
