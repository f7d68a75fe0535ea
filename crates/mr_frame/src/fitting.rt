//! Whether the types of a call are those of a function.
ghost use Rattle.std.specs.Prelude.{◌≡◌, ◌<◌, All, List, Some, length};
ghost use Rattle.mr_ast.specs.declared.types.Ty.{Ty as TypeOf};
ghost use Rattle.mr_eval.specs.Environment.{env_surround};
ghost use Rattle.mr_frame.specs.Calling.{ArgsIn, GivenIn, HasLocals, arg_types, written_types};
ghost use Rattle.mr_frame.specs.Calls.{given_types, kept_types, same_types};

use crate::frame::local_at;
use crate::types::{type_at, type_with};
use mr_ast::{Function, LocalName, Place, Value};
use mr_eval::Env;
use mr_typing::Known;

/// Whether the types of the place for the result and of the arguments are those of the function's return local and arguments.
pub fn is_fitting<'a>(e: &Env<'a>, args: &'a [Value], to: &'a Place, function: &'a Function) -> bool
    requires call { GivenIn e.now args.now to.now }
    requires locals { HasLocals function.now }
    ensures { (given kept : List TypeOf) → given_types (env_surround e.now) to.now args.now ≡ Some given
        → kept_types function.now ≡ Some kept → result ≡ same_types given kept }
{
    let place = Known::Written(type_at(e, to));
    let ret = Known::Written(&local_at(function, function.ret).ty);
    place.same(ret) && are_fitting(e, args, function, function.args.as_slice())
}

// Whether the types of values are those of a function's locals, one by one.
fn are_fitting<'a>(
    e: &Env<'a>,
    args: &'a [Value],
    function: &'a Function,
    names: &'a [LocalName],
) -> bool
    requires args { ArgsIn e.now args.now }
    requires names { All (λ x. x.0 < length function.now.locals) names.now }
    ensures { (given kept : List TypeOf) → arg_types (env_surround e.now) args.now ≡ Some given
        → written_types function.now names.now ≡ Some kept → result ≡ same_types given kept }
{
    for (k, arg) in args.iter().enumerate() {
        let Some(x) = names.get(k) else {
            return false;
        };
        let wanted = Known::Written(&local_at(function, *x).ty);
        if !type_with(e, arg).same(wanted) {
            return false;
        }
    }
    args.len() == names.len()
}
