// The body that a call begins, and its variables then.

ghost use Rattle.std.specs.Prelude.{◌≡◌, IfOk};
ghost use Rattle.sky_base.specs.Eval.{bind, body_of};
ghost use Rattle.sky_state.specs.BodyView.{IsBody};

use sky_base::script::Script;
use sky_base::text::{Memory, Txt};
use sky_base::value::{Pairs, Vals};

/// The parameters of a body, and the node of its block.
#[derive(Clone, Copy)]
pub struct Body<'a> {
    pub params: &'a [Txt],
    pub node: u32,
}

/// The body of the function of this name: that of the first such function, or the main body where the name is empty. A script's
/// functions are searched one by one: this happens once for a call that is started, and not for each call inside it.
#[tactic(auto, using(crate::proofs::Bodies::bodies))]
pub fn find_body<'a>(script: &'a Script, fun: &Txt) -> Body<'a>
    ensures { IsBody result (body_of fun.now script.now) }
{
    let main = Body {
        params: &[],
        node: 0,
    };
    if fun.is_empty() {
        return main;
    }
    let _bound = script.nodes();
    let mut node = script.main().nodes();
    for other in script.funs().as_slice() {
        if *fun == other.name {
            return Body {
                params: other.params.as_slice(),
                node: node as u32,
            };
        }
        node += other.body.nodes();
    }
    main
}

/// The parameters bound to the arguments, over what was captured.
pub fn bound(caught: &Pairs, params: &[Txt], args: &Vals) -> Result<Pairs, Memory>
    ensures { IfOk result (λ ps. ps ≡ bind params.now args.now caught.now) }
{
    let mut vars = caught.copy()?;
    for (i, param) in params.iter().enumerate() {
        let Some(arg) = args.get(i) else {
            return Ok(vars);
        };
        vars.insert(param.share()?, arg.copy()?)?;
    }
    Ok(vars)
}
