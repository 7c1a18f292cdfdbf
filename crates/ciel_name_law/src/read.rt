//! Reading values and descriptions.

ghost use Rattle.sky_base.specs.ObjectView.{desc_view, object_view};
ghost use Rattle.sky_base.specs.View.{pairs_of, vals_of, view};
ghost use Rattle.sky_base.specs.declared.object.Named.{Named as NamedSeen};
ghost use Rattle.sky_base_law.specs.Tasks.{Each};
ghost use Rattle.sky_base.specs.Val.{known};
ghost use Rattle.ciel_name.specs.Spelled.{IsName};
ghost use Rattle.ciel_name_law.specs.Told.{DescTold, FaultTold, ObjectTold, PairsTold, Told, ValsTold};

use sky_base::fault::Fault;
use sky_base::name::Name;
use sky_base::object::{Desc1, Named, Object};
use sky_base::value::{Pair, Value};

/// Reads a description as a whole. It takes no memory.
pub fn read_desc(desc: &Desc1)
    ensures told { DescTold (desc_view desc.now) }
{
    match desc {
        Desc1::Call { fun, caught, args } => {
            let _fun = fun.as_str();
            read_pairs(caught.as_slice());
            read_values(args.as_slice());
        }
        Desc1::Exec { executor, args, .. } => {
            let _executor = executor.as_str();
            read(args);
        }
        Desc1::Input { key } => {
            let _key = key.as_str();
        }
    }
}

/// Reads each of these descriptions. It takes no memory.
pub fn read_all(descs: &[Named])
    ensures told { Each (λ (n : NamedSeen). DescTold (desc_view n.desc)) descs.now }
{
    for named in descs {
        read_desc(&named.desc);
    }
}

/// Reads an object with all that it holds. It takes no memory.
pub fn read_object(object: &Object)
    ensures told { ObjectTold (object_view object.now) }
{
    match object {
        Object::Bytes(_) => {}
        Object::Data(value) => read(value),
        Object::Fault(fault) => read_fault(fault),
    }
}

/// Reads the place of a fault.
pub fn read_fault(fault: &Fault)
    ensures told { FaultTold fault.now }
{
    let _line = fault.line;
    let _col = fault.col;
}

/// Reads a name.
pub fn read_name(name: &Name)
    ensures told { IsName (known name.now) }
{
    let _name = name.bytes();
}

// Reads a value with all that it holds.
#[cycle(read)]
fn read(value: &Value)
    ensures told { Told (view value.now) }
{
    match value {
        Value::Int(number) => {
            let _number = *number;
        }
        Value::Text(text) => {
            let _text = text.as_str();
        }
        Value::List(values) => read_values(values.as_slice()),
        Value::Dict(pairs) => read_pairs(pairs.as_slice()),
        Value::Fun { name, caught } => {
            let _name = name.as_str();
            read_pairs(caught.as_slice());
        }
        Value::Ref(name) => {
            let _name = name.bytes();
        }
        Value::Null | Value::Bool(_) => {}
    }
}

#[cycle(read)]
#[tactic(auto, using(sky_base::proofs::Values::inside))]
fn read_values(values: &[Value])
    ensures told { ValsTold (vals_of values.now) }
{
    for value in values {
        read(value);
    }
}

#[cycle(read)]
#[tactic(auto, using(sky_base::proofs::Values::inside))]
fn read_pairs(pairs: &[Pair])
    ensures told { PairsTold (pairs_of pairs.now) }
{
    for pair in pairs {
        let _key = pair.key.as_str();
        read(&pair.value);
    }
}
