// Laws of the evaluation of texts.
ghost use Rattle.ngx_variables.specs.Acts.{ValueSettles, SettlesBehindValue};
ghost use Rattle.ngx_variables.specs.Grammar.{BuiltinIsNotSet};

/// The evaluation of a text as acts changes no variable, and gives the text.
pub fn value_settles<C, R>()
    ensures { ValueSettles C R }
{}

/// What follows the evaluation goes on with the text, at the same variables.
pub fn settles_behind_value<C, R, A>()
    ensures { SettlesBehindValue C R A }
{}

/// A name is read as a set variable's exactly where it is no built-in variable's.
pub fn builtin_is_not_set()
    ensures { BuiltinIsNotSet }
{}
