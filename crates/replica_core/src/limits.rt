//! The limits that the types of a mutation keep. These functions do nothing at run time: their call
//! gives a caller's proof what the type says of the value.
ghost use Rattle.std.specs.Prelude.{◌≡◌, true};
ghost use Rattle.json_scalar.specs.Scalar.{is_val};
ghost use Rattle.json_scalar.specs.declared.scalar.Scalar.TheVariants.{Int};
ghost use Rattle.json_scalar.specs.declared.scalar.Val.TheVariants.{Scalar as Plain};
ghost use Rattle.op_core.specs.Shape.{is_mutation};

use json_scalar::{Scalar, Val};
use op_core::Mutation;

/// Each mutation is within the limits.
pub fn keeps_limits(mutation: &Mutation)
    ensures { is_mutation mutation.now ≡ true }
{
    match mutation {
        Mutation::Assign(val) => keeps_val(val),
        Mutation::Insert(val) => keeps_val(val),
        Mutation::Delete => {}
        Mutation::Add(n) => keeps_number(n),
    }
}

fn keeps_val(val: &Val)
    ensures { is_val val.now ≡ true }
{
    match val {
        Val::Scalar(Scalar::Text(text)) => {
            let _text = text.as_str();
        }
        Val::Scalar(Scalar::Int(n)) => keeps_number(n),
        Val::Scalar(Scalar::Bool(_)) => {}
        Val::Scalar(Scalar::Null) => {}
        Val::EmptyMap => {}
        Val::EmptyList => {}
    }
}

fn keeps_number(n: &i64)
    ensures { is_val (Plain (Int n.now)) ≡ true }
{
    let _number = *n;
}
