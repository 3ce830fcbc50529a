// Laws of a family.
ghost use Rattle.family_meaning.specs.Exact.{FirstIsExact, OrderIsNoMatter};
ghost use Rattle.family_meaning.specs.Flight.{BeginsWhole};

/// What is still to come at the start of a request is the response that the recursive meaning gives.
pub fn begins_whole()
    ensures { BeginsWhole }
{}

/// A step of the first node of a line changes nothing of what is still to come.
pub fn first_steps_are_exact()
    ensures { FirstIsExact }
{}

/// Steps that neither read nor write a variable, of any nodes, come to the same in any order.
pub fn order_is_no_matter()
    ensures { OrderIsNoMatter }
{}
