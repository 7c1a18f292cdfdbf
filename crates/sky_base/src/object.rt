// Descriptions, tasks and objects, as the engine holds them: the references inside are names.

ghost use Rattle.std.specs.Prelude.{◌≡◌, IfOk};

use crate::fault::Fault;
use crate::name::Name;
use crate::text::{Bytes, Memory, Txt};
use crate::value::{Pairs, Vals, Value};

/// A description one level deep: what an object is the result of. The script's main body is the call
/// with the empty function name, nothing captured and no arguments.
pub enum Desc1 {
    /// What a call of a function of the script returns. `caught` is what the function captured, none for
    /// a named one.
    Call {
        fun: Txt,
        caught: Pairs,
        args: Vals,
    },
    /// Output `index`, from 0, of an executor that makes `outputs` outputs.
    Exec {
        executor: Txt,
        args: Value,
        outputs: u32,
        index: u32,
    },
    /// An input of the job.
    Input {
        key: Txt,
    },
}

impl Drop for Desc1 {
    fn drop(self) {
        match self {
            Desc1::Call {
                fun: _,
                caught: _,
                args: _,
            } => {}
            Desc1::Exec {
                executor: _,
                args: _,
                outputs: _,
                index: _,
            } => {}
            Desc1::Input { key: _ } => {}
        }
    }
}

/// A description with its name.
#[derive(Drop)]
pub struct Named {
    pub name: Name,
    pub desc: Desc1,
}

/// Which task is meant.
#[derive(Clone, Copy, PartialEq, Eq, PartialOrd, Ord, Debug)]
pub enum TaskId {
    /// The root task, which makes the result.
    Show,
    /// The call of this name, or the executor task whose output 0 has this name.
    Of(Name),
}

/// What is known of a description once its task has ended.
pub enum Object {
    Bytes(Bytes),
    Data(Value),
    Fault(Fault),
}

impl Drop for Object {
    fn drop(self) {
        match self {
            Object::Bytes(_) => {}
            Object::Data(_) => {}
            Object::Fault(_) => {}
        }
    }
}

impl Desc1 {
    /// An equal description, in constant time.
    pub fn copy(&self) -> Result<Desc1, Memory>
        ensures { IfOk result (λ d. d ≡ self.now) }
    {
        match self {
            Desc1::Call { fun, caught, args } => Ok(Desc1::Call {
                fun: fun.share()?,
                caught: caught.copy()?,
                args: args.copy()?,
            }),
            Desc1::Exec {
                executor,
                args,
                outputs,
                index,
            } => Ok(Desc1::Exec {
                executor: executor.share()?,
                args: args.copy()?,
                outputs: *outputs,
                index: *index,
            }),
            Desc1::Input { key } => Ok(Desc1::Input { key: key.share()? }),
        }
    }
}

impl Named {
    /// An equal description with its name, in constant time.
    pub fn copy(&self) -> Result<Named, Memory>
        ensures { IfOk result (λ d. d ≡ self.now) }
    {
        Ok(Named {
            name: self.name,
            desc: self.desc.copy()?,
        })
    }
}

impl Object {
    /// An equal object, in constant time.
    pub fn copy(&self) -> Result<Object, Memory>
        ensures { IfOk result (λ o. o ≡ self.now) }
    {
        match self {
            Object::Bytes(bytes) => Ok(Object::Bytes(bytes.share()?)),
            Object::Data(v) => Ok(Object::Data(v.copy()?)),
            Object::Fault(fault) => Ok(Object::Fault(*fault)),
        }
    }
}
